//! Observability of a window. Its fanout cone is a bounded transitive fanout (TFO). A row of its inputs is
//! unobservable, an observability don't-care (ODC), where no output of the fanout cone depends on the window;
//! on such a row a chain that replaces the window may have any value (`specs/FanoutCone.antt`, `Unobservable.antt`,
//! `Observed.antt`). The laws rest on `window_theory`, and on one fact: the side inputs of the fanout cone
//! don't depend on the window.
#![tactic(auto)]

pub mod laws;
