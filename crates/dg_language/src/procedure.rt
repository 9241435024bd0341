//! Procedures of a script.
use dg_bytes::{Bytes, Seq};

/// A parameter of a procedure, by proc(n): its name, and the value that it has where a call gives none.
#[derive(Drop)]
pub struct Parameter {
    pub name: Bytes,
    pub default: Option<Bytes>,
}

/// A procedure: its parameters and its body.
#[derive(Drop)]
pub struct Procedure {
    pub parameters: Seq<Parameter>,
    pub body: Bytes,
}

/// A variable and its value.
#[derive(Drop)]
pub struct Binding {
    pub name: Bytes,
    pub value: Bytes,
}
