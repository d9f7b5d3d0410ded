ghost use Rattle.std.specs.Prelude.{◌≡◌, IfOk, map};
ghost use Rattle.store_model.specs.Values.Datum.{datum_of};

use crate::{Addr, Value};
use mir_base::{List, NoMemory};
use std::alloc::Global;

impl Addr {
    /// A second address of the same place.
    pub fn copy(&self, alloc: Global) -> Result<Addr, NoMemory>
        ensures { IfOk result (λ address. address ≡ self.now) }
    {
        Ok(Addr {
            depth: self.depth,
            key: self.key,
            path: self.path.copy(alloc)?,
        })
    }
}

impl Value {
    /// A second value with the same parts and serial numbers. A run copies values of `Copy` types alone,
    /// which have neither serial numbers nor boxes and are no deeper than their types; this call recurses
    /// as deep as the value.
    #[cycle(copy)]
    pub fn copy(&self, alloc: Global) -> Result<Value, NoMemory>
        ensures { IfOk result (λ value. datum_of value ≡ datum_of self.now) }
    {
        match self {
            Value::Gone => Ok(Value::Gone),
            Value::Int(number) => Ok(Value::Int(*number)),
            Value::Bool(truth) => Ok(Value::Bool(*truth)),
            Value::Unit => Ok(Value::Unit),
            Value::Parts {
                variant,
                serial,
                parts,
            } => {
                let parts = copy_parts(alloc, parts)?;
                Ok(Value::Parts {
                    variant: *variant,
                    serial: *serial,
                    parts,
                })
            }
            Value::Boxed {
                serial,
                impl_no,
                inside,
            } => {
                let inside = inside.copy(alloc)?;
                Ok(Value::Boxed {
                    serial: *serial,
                    impl_no: *impl_no,
                    inside: Box::new(alloc, inside)?,
                })
            }
            Value::Address(address) => Ok(Value::Address(address.copy(alloc)?)),
        }
    }
}

/// The parts of a second value.
#[cycle(copy)]
fn copy_parts(alloc: Global, parts: &List<Value>) -> Result<List<Value>, NoMemory>
    ensures { IfOk result (λ copies. map datum_of copies ≡ map datum_of parts.now) }
{
    let mut copies = List::new(alloc);
    for part in parts.as_slice() {
        copies.push(part.copy(alloc)?)?;
    }
    Ok(copies)
}
