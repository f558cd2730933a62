//! From a record to an accepted rule.
ghost use Rattle.firmware.specs.Replies.{AcceptReplied};

use crate::reply::Reply;
use trial::TrialFault;
use typing::rule::Rule;

/// Accepts a record into a rule place, writes its type answer to the front of `types`, and replies with its count of
/// entries. A refusal keeps the rule and the whole of `types`.
pub fn accept(
    rule: &mut Rule,
    bytes: &[u8],
    first: &mut [u16],
    second: &mut [u16],
    types: &mut [u16],
) -> Reply
    ensures { AcceptReplied bytes.now first.old second.old types.old rule.old first.new second.new types.new rule.new result }
{
    match typing::accept::accept(bytes, first, second, types, rule) {
        Ok(count) => Reply::done(count),
        Err(fault) => Reply::refused(TrialFault::Rule(fault)),
    }
}
