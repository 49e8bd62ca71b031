//! A legaliser, asked for names and for sources.

ghost use Rattle.std.specs.Prelude.{◌≡◌};

use crate::store_call::StoreCall;
use ir_base_dialects::{CoreError, Identifier, Legaliser};
use std::alloc::Global;

/// A call on a legaliser.
#[derive(Clone, Copy, Debug, Drop)]
pub enum LegaliserCall {
    /// `legalise` of a source whose base is free.
    Free,
    /// `legalise` of a source whose base is taken.
    Taken,
    /// `legalise` of a source that has a name.
    Known,
    /// `source_name`.
    Source,
}

impl LegaliserCall {
    /// All of them.
    pub const ALL: [LegaliserCall; 4] = [
        LegaliserCall::Free,
        LegaliserCall::Taken,
        LegaliserCall::Known,
        LegaliserCall::Source,
    ];

    /// The call as `ALL` has it.
    pub fn listed(self) -> LegaliserCall
        ensures { result ≡ self }
    {
        LegaliserCall::ALL[self as usize]
    }

    // Makes the call, once the legaliser knows a source.
    fn ask(self, legaliser: &mut Legaliser) -> Result<bool, CoreError> {
        legaliser.legalise("a.b")?;
        match self {
            LegaliserCall::Free => gives(legaliser, "c.d", "c_d"),
            LegaliserCall::Taken => gives(legaliser, "a_b", "a_b_0"),
            LegaliserCall::Known => gives(legaliser, "a.b", "a_b"),
            LegaliserCall::Source => leads_back(legaliser, &Identifier::new("a_b"), "a.b"),
        }
    }
}

impl StoreCall for LegaliserCall {
    fn name(self) -> &'static str {
        match self {
            LegaliserCall::Free | LegaliserCall::Taken | LegaliserCall::Known => "legalise",
            LegaliserCall::Source => "source_name",
        }
    }

    fn make(self, alloc: Global) -> Result<bool, CoreError> {
        let mut legaliser = Legaliser::new(alloc);
        self.ask(&mut legaliser)
    }
}

// Whether the source gets the name. Where memory lacks, what had a name has it still, and the same call gives it afterwards, so that no number was skipped.
fn gives(legaliser: &mut Legaliser, source: &str, name: &str) -> Result<bool, CoreError> {
    let given = match legaliser.legalise(source) {
        Ok(given) => given,
        Err(CoreError::OutOfMemory) => {
            if !leads_back(legaliser, &Identifier::new("a_b"), "a.b")? {
                return Ok(false);
            }
            legaliser.legalise(source)?
        }
        Err(error) => return Err(error),
    };
    Ok(given.as_str() == name && leads_back(legaliser, &given, source)?)
}

// Whether the source of the name is this one.
fn leads_back(legaliser: &Legaliser, name: &Identifier, source: &str) -> Result<bool, CoreError> {
    let found = legaliser.source_name(name)?;
    Ok(found.is_some_and(|text| text.as_str() == source))
}
