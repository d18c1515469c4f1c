//! Which points come first and last, as a cursor reads it.

ghost use Rattle.std.specs.Prelude.{◌≡◌, ◌≢◌, length, IfOk};
ghost use Rattle.ept_ckpt.specs.declared.version.BodyVersion.TheVariants.{V3};
ghost use Rattle.ept_ckpt.specs.Facts.{precedence_facts};
ghost use Rattle.ept_ckpt.specs.Forms.{precedence_form};
ghost use Rattle.ept_ckpt.specs.Reads.{ReadsAs};
ghost use Rattle.ept_ckpt.specs.Valid.{IsPlain};

use crate::cursor::Cursor;
use crate::field_error::FieldError;
use crate::version::BodyVersion;
use ept_class::{ClassSet, SET_LENGTH};

/// Which points come first, and which last.
#[derive(Clone, Copy, Debug)]
pub(crate) struct Precedence {
    pub(crate) first: ClassSet,
    pub(crate) withheld_last: bool,
}

impl<'a> Cursor<'a> {
    /// Which points come first and last: from the next bytes in version 3, and none before it.
    pub(crate) fn precedence(&mut self, version: BodyVersion) -> Result<Precedence, FieldError>
        ensures reads { ReadsAs (precedence_form version) precedence_facts self.old self.new result }
        ensures plain { version ≢ V3 → IfOk result (λ p. IsPlain p.first p.withheld_last) }
    {
        match version {
            BodyVersion::V1 | BodyVersion::V2 => Ok(Precedence {
                first: ClassSet::new(),
                withheld_last: false,
            }),
            BodyVersion::V3 => self.given_precedence(),
        }
    }

    // From the next bytes: the classes that come first, and whether withheld points come last.
    #[tactic(auto, unfolding(crate::specs::Forms::precedence_form))]
    fn given_precedence(&mut self) -> Result<Precedence, FieldError>
        ensures reads { ReadsAs (precedence_form V3) precedence_facts self.old self.new result }
    {
        let front = self.bytes(SET_LENGTH)?;
        let first = set_of(front);
        let withheld_last = self.within(1, 0, 1)? == 1;
        Ok(Precedence {
            first,
            withheld_last,
        })
    }
}

// The set of classes that these bytes represent.
fn set_of(front: &[u8]) -> ClassSet
    requires { length front.now ≡ SET_LENGTH }
    ensures { result.bytes ≡ front.now }
{
    let mut bytes = [0; SET_LENGTH];
    bytes.copy_from_slice(front);
    ClassSet::of(bytes)
}
