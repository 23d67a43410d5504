//! The manual page: the pages on the program, its commands and its formats in the form of `man`.

use crate::commands::{COMMANDS, CommandName, name_of};
use crate::pages::{push_command, push_program};
use crate::topics::{Topic, push_topic, topic_name, topics};
use std::alloc::AllocError;

const HEAD: &[u8] = b".TH BATSOKEMI 1 2026-11-30
.SH NAME
batsokemi \\- exact synthesis with certificates, resynthesis of netlists, equivalence checking
.SH DESCRIPTION
";

const TAIL: &[u8] = b".SH STANDARDS
Netlists are a profile of the Berkeley Logic Interchange Format (1992), or of BENCH, the format of the ISCAS
benchmark files. Lines of logs are LRAT with additions by unit propagation and deletions.
.SH CAVEATS
The program keeps the promises of docs/GUARANTEES.md, which are proved. What the system does with files, and the
tools, are not proved, and no proof bounds time and memory.
.SH SEE ALSO
The tools tables, export, tabulate, classes, draw and blif, each with \\-\\-help; installed they are called
batsokemi-tables and so on. docs/TUTORIAL.md shows how to use all of them, and docs/FORMATS.md has the formats.
.SH COPYRIGHT
Copyright (c) 2026 The Batsokemi developers. Licensed under MIT or Apache-2.0, at your choice.
";

/// Appends a page as it is, of which `man` changes nothing.
fn push_literal(manual: &mut Vec<u8>, page: &[u8]) -> Result<(), AllocError> {
    manual.extend_from_slice(b".nf\n")?;
    let mut is_first = true;
    for byte in page {
        if is_first && (*byte == b'.' || *byte == b'\'') {
            manual.extend_from_slice(b"\\&")?;
        }
        is_first = *byte == b'\n';
        match *byte {
            b'\\' => manual.extend_from_slice(b"\\e")?,
            b'-' => manual.extend_from_slice(b"\\-")?,
            b'\'' => manual.extend_from_slice(b"\\(aq")?,
            b'`' => manual.extend_from_slice(b"\\(ga")?,
            b'^' => manual.extend_from_slice(b"\\(ha")?,
            other => manual.push(other)?,
        }
    }
    manual.extend_from_slice(b".fi\n")
}

/// Appends the head of a section.
fn push_section(manual: &mut Vec<u8>, name: &[u8]) -> Result<(), AllocError> {
    manual.extend_from_slice(b".SH ")?;
    for byte in name {
        manual.push(byte.to_ascii_uppercase())?;
    }
    Ok(manual.push(b'\n')?)
}

/// Appends the section of a command.
fn push_command_section(manual: &mut Vec<u8>, command: CommandName) -> Result<(), AllocError> {
    let mut page = Vec::new(*manual.allocator());
    push_command(&mut page, command)?;
    push_section(manual, name_of(command))?;
    push_literal(manual, &page)
}

/// Appends the section of a subject.
fn push_topic_section(manual: &mut Vec<u8>, topic: Topic) -> Result<(), AllocError> {
    let mut page = Vec::new(*manual.allocator());
    push_topic(&mut page, topic)?;
    push_section(manual, topic_name(topic))?;
    push_literal(manual, &page)
}

/// Appends the sections of all commands.
fn push_commands(manual: &mut Vec<u8>) -> Result<(), AllocError> {
    for command in COMMANDS {
        push_command_section(manual, *command)?;
    }
    Ok(())
}

/// Appends the sections of all subjects.
fn push_topics(manual: &mut Vec<u8>) -> Result<(), AllocError> {
    for topic in topics() {
        push_topic_section(manual, *topic)?;
    }
    Ok(())
}

/// Appends the manual page.
pub(crate) fn push_manual(manual: &mut Vec<u8>) -> Result<(), AllocError> {
    let mut page = Vec::new(*manual.allocator());
    push_program(&mut page)?;
    manual.extend_from_slice(HEAD)?;
    push_literal(manual, &page)?;
    push_commands(manual)?;
    push_topics(manual)?;
    manual.extend_from_slice(TAIL)
}
