//! Each variant of each error has an entry in the table.

use cert_theory::CertificateError;
use chain_core::ChainError;
use depth_theory::DepthError;
use error_help::{Subject, has_entry, has_step_entry};
use lrat_check::CheckError;
use net_core::{Name, NetError};
use std::alloc::{AllocError, Global};
use tt_core::SpecError;

/// The name of a fault of tables.
fn table_name(error: SpecError) -> &'static [u8] {
    match error {
        SpecError::BadHeader(_) => b"BadHeader",
        SpecError::BadRow(_) => b"BadRow",
        SpecError::WrongLength(_) => b"WrongLength",
        SpecError::TooManyInputs => b"TooManyInputs",
        SpecError::TooManyOutputs => b"TooManyOutputs",
        SpecError::NoOutput => b"NoOutput",
        SpecError::Memory => b"Memory",
    }
}

const OF_TABLES: &[SpecError] = &[
    SpecError::BadHeader(1),
    SpecError::BadRow(1),
    SpecError::WrongLength(1),
    SpecError::TooManyInputs,
    SpecError::TooManyOutputs,
    SpecError::NoOutput,
    SpecError::Memory,
];

/// The name of a fault of a chain.
fn chain_name(error: ChainError) -> &'static [u8] {
    match error {
        ChainError::BadStep(_) => b"BadStep",
        ChainError::ForwardPlace(_) => b"ForwardPlace",
        ChainError::BadOut(_) => b"BadOut",
        ChainError::TooManySteps(_) => b"TooManySteps",
        ChainError::BadCount(_) => b"BadCount",
        ChainError::Memory => b"Memory",
    }
}

const OF_CHAINS: &[ChainError] = &[
    ChainError::BadStep(1),
    ChainError::ForwardPlace(1),
    ChainError::BadOut(1),
    ChainError::TooManySteps(1),
    ChainError::BadCount(1),
    ChainError::Memory,
];

/// The name of a fault of a log's line.
fn step_name(error: CheckError) -> &'static [u8] {
    match error {
        CheckError::UnknownId(_) => b"UnknownId",
        CheckError::NotUnit(_) => b"NotUnit",
        CheckError::NoConflict => b"NoConflict",
        CheckError::UnknownDelete(_) => b"UnknownDelete",
        CheckError::IdNotGreater(_) => b"IdNotGreater",
        CheckError::UnknownVariable(_) => b"UnknownVariable",
        CheckError::Memory => b"Memory",
    }
}

const OF_STEPS: &[CheckError] = &[
    CheckError::UnknownId(1),
    CheckError::NotUnit(1),
    CheckError::NoConflict,
    CheckError::UnknownDelete(1),
    CheckError::IdNotGreater(1),
    CheckError::UnknownVariable(1),
    CheckError::Memory,
];

/// The name of a fault of a certificate.
fn certificate_name(error: CertificateError) -> &'static [u8] {
    match error {
        CertificateError::Syntax(_) => b"Syntax",
        CertificateError::SizeOutOfOrder(_) => b"SizeOutOfOrder",
        CertificateError::StepRefused(_, _) => b"StepRefused",
        CertificateError::NotRefuted(_) => b"NotRefuted",
        CertificateError::ChainDiffers(_, _) => b"ChainDiffers",
        CertificateError::OperatorNotInBasis(_) => b"OperatorNotInBasis",
        CertificateError::OpenTooShort(_) => b"OpenTooShort",
        CertificateError::NotNew(_) => b"NotNew",
        CertificateError::WrongVerdict(_) => b"WrongVerdict",
        CertificateError::Memory => b"Memory",
    }
}

const OF_CERTIFICATES: &[CertificateError] = &[
    CertificateError::Syntax(1),
    CertificateError::SizeOutOfOrder(1),
    CertificateError::StepRefused(1, CheckError::NoConflict),
    CertificateError::NotRefuted(1),
    CertificateError::ChainDiffers(1, 0),
    CertificateError::OperatorNotInBasis(3),
    CertificateError::OpenTooShort(1),
    CertificateError::NotNew(1),
    CertificateError::WrongVerdict(1),
    CertificateError::Memory,
];

/// The name of a fault of a depth certificate; of the certificate in it, that of its own fault.
fn depth_name(error: DepthError) -> &'static [u8] {
    match error {
        DepthError::Certificate(_) => b"StepRefused",
        DepthError::NotLeastForm => b"NotLeastForm",
        DepthError::Syntax(_) => b"Syntax",
        DepthError::WrongDepth(_) => b"WrongDepth",
        DepthError::StepRefused(_, _) => b"StepRefused",
        DepthError::NotNew(_) => b"NotNew",
        DepthError::NotRefuted(_) => b"NotRefuted",
        DepthError::OpenTooShort(_) => b"OpenTooShort",
        DepthError::WrongLevels(_) => b"WrongLevels",
        DepthError::Memory => b"Memory",
    }
}

const OF_DEPTHS: &[DepthError] = &[
    DepthError::NotLeastForm,
    DepthError::Syntax(1),
    DepthError::WrongDepth(1),
    DepthError::StepRefused(1, CheckError::NoConflict),
    DepthError::NotNew(1),
    DepthError::NotRefuted(1),
    DepthError::OpenTooShort(1),
    DepthError::WrongLevels(1),
    DepthError::Memory,
];

/// The name of a fault of a netlist.
fn net_name(error: &NetError) -> &'static [u8] {
    match error {
        NetError::Syntax(_) => b"Syntax",
        NetError::NotSupported(_, _) => b"NotSupported",
        NetError::MixedCover(_) => b"MixedCover",
        NetError::TooWide(_) => b"TooWide",
        NetError::TooManyGates(_) => b"TooManyGates",
        NetError::DrivenTwice(_) => b"DrivenTwice",
        NetError::Undriven(_) => b"Undriven",
        NetError::Cycle(_) => b"Cycle",
        NetError::LineTooLong(_) => b"LineTooLong",
        NetError::TooManyRows(_) => b"TooManyRows",
        NetError::NameTooLong(_) => b"NameTooLong",
        NetError::Memory => b"Memory",
    }
}

/// A fault of each variant.
fn net_faults(alloc: Global) -> Result<[NetError; 12], AllocError> {
    Ok([
        NetError::Syntax(1),
        NetError::NotSupported(1, Name::of(alloc, b".gate")?),
        NetError::MixedCover(1),
        NetError::TooWide(1),
        NetError::TooManyGates(100_001),
        NetError::DrivenTwice(Name::of(alloc, b"a")?),
        NetError::Undriven(Name::of(alloc, b"a")?),
        NetError::Cycle(Name::of(alloc, b"a")?),
        NetError::LineTooLong(1),
        NetError::TooManyRows(1),
        NetError::NameTooLong(1),
        NetError::Memory,
    ])
}

#[test]
fn each_fault_of_tables_has_an_entry(rt: HostRuntime) {
    for error in OF_TABLES {
        assert!(rt; has_entry(Subject::Tables, table_name(*error)));
        assert!(rt; has_entry(Subject::Question, table_name(*error)));
    }
}

#[test]
fn each_fault_of_chains_has_an_entry(rt: HostRuntime) {
    for error in OF_CHAINS {
        assert!(rt; has_entry(Subject::Question, chain_name(*error)));
    }
    assert!(rt; has_entry(Subject::Question, b"BadEnd"));
}

#[test]
fn each_fault_of_logs_has_an_entry(rt: HostRuntime) {
    for error in OF_STEPS {
        assert!(rt; has_step_entry(step_name(*error)));
    }
}

#[test]
fn each_fault_of_certificates_has_an_entry(rt: HostRuntime) {
    for error in OF_CERTIFICATES {
        assert!(rt; has_entry(Subject::Certificate, certificate_name(*error)));
    }
}

#[test]
fn each_fault_of_depth_certificates_has_an_entry(rt: HostRuntime) {
    for error in OF_DEPTHS {
        assert!(rt; has_entry(Subject::Depth, depth_name(*error)));
    }
}

#[test]
fn each_fault_of_netlists_has_an_entry(rt: HostRuntime) -> Result<(), AllocError> {
    for error in &net_faults(rt.alloc())? {
        assert!(rt; has_entry(Subject::Blif, net_name(error)));
        assert!(rt; has_entry(Subject::Bench, net_name(error)));
    }
    Ok(())
}

#[test]
fn each_fault_of_pairs_has_an_entry(rt: HostRuntime) {
    assert!(rt;
        has_entry(Subject::Pair, b"NoSecond") && has_entry(Subject::Pair, b"DifferentInterface")
    );
    assert!(rt; has_entry(Subject::Pair, b"Memory") && has_entry(Subject::Pair, b"TooLong"));
    assert!(rt; has_entry(Subject::Pair, b"SourceCount"));
    assert!(rt; has_entry(Subject::Blif, b"Empty"));
}
