//! The encodings that can be chosen, and their names.
ghost use Rattle.std.specs.Prelude.{◌≡◌};
ghost use Rattle.settings.specs.Methods as spec;

/// How "is there a chain of this size?" becomes a CNF formula. SSV has one selection variable for each pair of
/// operands of a step (single selection variable); MSV has one for each operand (multiple selection variables).
#[derive(Clone, Copy, PartialEq, Eq)]
pub enum Method {
    /// SSV without symmetry breaking: every chain of the size is a satisfying assignment.
    Plain,
    /// SSV with symmetry-breaking constraints, which at least one minimum chain satisfies.
    Ssv,
    /// MSV with the same constraints.
    Select,
    /// Like `Ssv`, but with one formula for each fence, that is, for each distribution of the steps over
    /// levels.
    Fence,
    /// Like `Ssv`, with further clauses that every chain satisfies.
    Strong,
    /// Like `Fence`, with the same further clauses.
    StrongFence,
}

/// How the method of a search is chosen.
#[derive(Clone, Copy, PartialEq, Eq)]
pub enum MethodChoice {
    /// This method, whatever the tables.
    Named(Method),
    /// By the tables: `Ssv` up to three inputs, otherwise `StrongFence` for one output and `Strong` for several.
    Auto,
}

/// The name of a method.
pub fn method_name(method: Method) -> &'static [u8]
    ensures { result.now ≡ spec.method_text method }
{
    match method {
        Method::Plain => b"plain",
        Method::Ssv => b"ssv",
        Method::Select => b"select",
        Method::Fence => b"fence",
        Method::Strong => b"strong",
        Method::StrongFence => b"strong-fence",
    }
}

/// The method named `word`; None if no method has that name.
pub fn method_named(word: &[u8]) -> Option<Method>
    ensures { result ≡ spec.method_named word.now }
{
    if word == b"plain".as_slice() {
        return Some(Method::Plain);
    }
    if word == b"ssv".as_slice() {
        return Some(Method::Ssv);
    }
    if word == b"select".as_slice() {
        return Some(Method::Select);
    }
    if word == b"fence".as_slice() {
        return Some(Method::Fence);
    }
    if word == b"strong".as_slice() {
        return Some(Method::Strong);
    }
    if word == b"strong-fence".as_slice() {
        return Some(Method::StrongFence);
    }
    None
}

/// The choice named `word`: `auto`, or the name of a method; None for any other word.
pub fn choice_named(word: &[u8]) -> Option<MethodChoice>
    ensures { result ≡ spec.choice_named word.now }
{
    if word == b"auto".as_slice() {
        return Some(MethodChoice::Auto);
    }
    match method_named(word) {
        Some(method) => Some(MethodChoice::Named(method)),
        None => None,
    }
}

/// The method for tables of so many inputs and outputs.
pub fn method_for(choice: MethodChoice, inputs: u32, outputs: u32) -> Method
    ensures { result ≡ spec.method_for choice inputs outputs }
{
    match choice {
        MethodChoice::Named(method) => method,
        MethodChoice::Auto if inputs <= 3 => Method::Ssv,
        MethodChoice::Auto if outputs == 1 => Method::StrongFence,
        MethodChoice::Auto => Method::Strong,
    }
}
