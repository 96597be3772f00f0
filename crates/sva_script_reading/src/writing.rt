//! The pieces of a text, appended one after another.

ghost use Rattle.std.specs.Prelude.{◌≡◌, ◌++◌, OnOk, decimal};
ghost use Rattle.sva_step.specs.declared.refusals.Refusal.TheVariants as refusal;
ghost use Rattle.sva_step.specs.Refusals.{refusal_text};
ghost use Rattle.sva_grammar.specs.Replies.{ended, reply_text};

use itoa::Buffer;
use std::alloc::AllocError;
use sva_step::{Answer, Refusal};

/// Appends a decimal number.
pub fn put_number(out: &mut Vec<u8>, number: u64) -> Result<(), AllocError>
    ensures { OnOk result (out.new.items ≡ out.old.items ++ decimal number) }
{
    out.extend_from_slice(Buffer::new().format(number).as_bytes())
}

/// Appends an answer, or `refused N Name`.
pub fn put_reply(out: &mut Vec<u8>, reply: &Result<Answer, Refusal>) -> Result<(), AllocError>
    ensures { OnOk result (out.new.items ≡ out.old.items ++ reply_text reply.now) }
{
    match reply {
        Ok(answer) => answer.write(out),
        Err(refusal) => refusal.write(out),
    }
}

/// Appends the line of a config that is out of its limits.
pub fn put_bad_config(out: &mut Vec<u8>) -> Result<(), AllocError>
    ensures { OnOk result (out.new.items ≡ out.old.items ++ ended (refusal_text refusal.BadConfig)) }
{
    Refusal::BadConfig.write(out)?;
    out.extend_from_slice(b"\n")
}
