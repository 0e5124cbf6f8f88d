//! Copies of names with their places and bases.
ghost use Rattle.std.specs.Prelude.{◌≡◌, IfOk};

use crate::base::Text;
use crate::memory::NoMemory;
use crate::raw::{Number, Param, Part};
use std::alloc::Global;

impl Param {
    /// An equal parameter.
    pub fn try_copy(&self, alloc: Global) -> Result<Param, NoMemory>
        ensures { IfOk result (λ new. new ≡ self.now) }
    {
        Ok(Param {
            place: self.place,
            name: self.name.try_copy(alloc)?,
            base: self.base,
        })
    }
}

impl Number {
    /// An equal number.
    pub fn try_copy(&self, alloc: Global) -> Result<Number, NoMemory>
        ensures { IfOk result (λ new. new ≡ self.now) }
    {
        match self {
            Number::Lit(k) => Ok(Number::Lit(*k)),
            Number::Name { place, name } => {
                let name = name.try_copy(alloc)?;
                Ok(Number::Name {
                    place: *place,
                    name,
                })
            }
        }
    }
}

fn copy_factor(alloc: Global, factor: &Option<Number>) -> Result<Option<Number>, NoMemory>
    ensures { IfOk result (λ new. new ≡ factor.now) }
{
    match factor {
        None => Ok(None),
        Some(k) => {
            let k = k.try_copy(alloc)?;
            Ok(Some(k))
        }
    }
}

impl Part {
    /// An equal part of a pattern.
    pub fn try_copy(&self, alloc: Global) -> Result<Part, NoMemory>
        ensures { IfOk result (λ new. new ≡ self.now) }
    {
        let factor = copy_factor(alloc, &self.factor)?;
        let name = self.name.try_copy(alloc)?;
        Ok(Part {
            start: self.start,
            is_negative: self.is_negative,
            factor,
            place: self.place,
            name,
        })
    }
}

/// Equal texts, in the same order.
pub fn copy_texts(alloc: Global, texts: &[Text]) -> Result<Vec<Text>, NoMemory>
    ensures { IfOk result (λ new. new.items ≡ texts.now) }
{
    let mut all = Vec::new(alloc);
    for text in texts {
        all.push(text.try_copy(alloc)?)?;
    }
    Ok(all)
}

/// Equal params, in the same order.
pub fn copy_params(alloc: Global, params: &[Param]) -> Result<Vec<Param>, NoMemory>
    ensures { IfOk result (λ new. new.items ≡ params.now) }
{
    let mut all = Vec::new(alloc);
    for param in params {
        all.push(param.try_copy(alloc)?)?;
    }
    Ok(all)
}

/// Equal parts, in the same order.
pub fn copy_parts(alloc: Global, parts: &[Part]) -> Result<Vec<Part>, NoMemory>
    ensures { IfOk result (λ new. new.items ≡ parts.now) }
{
    let mut all = Vec::new(alloc);
    for part in parts {
        all.push(part.try_copy(alloc)?)?;
    }
    Ok(all)
}
