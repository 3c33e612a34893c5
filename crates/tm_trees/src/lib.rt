//! Trees and instructions as definitions and proofs above cite them: one module for each, so that an import names no module that the toolchain
//! makes of the sources. The crate holds no code.
//!
//! A source file that brings in all forms of a type by one name takes them from `tm_syntax`, as the toolchain itself does for a contract.
#![tactic(auto)]
