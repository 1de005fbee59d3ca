//! Folded stacks as data.
ghost use Rattle.std.specs.{List.join_with_byte, Prelude.{◌≡◌, ◌++◌, [], map, string_bytes, IfErr, OnOk}};
ghost use Rattle.span_page.specs.{json_text_of, AreAscending, folded_after, Bounds.IsFaultOf, Coded.coded_after, Data.{stack_json, stacks_json}};

use crate::fault::{PageFault, check_length};
use span_event::Text;
use span_report::json_text;
use span_report::stacks::StackFrame;
use std::alloc::{AllocError, Global};

// Appends the stacks, each without the frames with which it begins as the one before it does.
#[tactic(auto, unfolding(crate::specs::Data::stacks_json), using(std::proofs::Common::append_assoc))]
pub(crate) fn put_stacks(
    alloc: Global,
    out: &mut String,
    frames: &[StackFrame],
) -> Result<(), PageFault>
    requires { AreAscending [] frames.now }
    ensures json { OnOk result (string_bytes out.new
        ≡ string_bytes out.old ++ stacks_json (folded_after [] frames.now)) }
    ensures full { IfErr result (IsFaultOf
        (string_bytes out.old ++ stacks_json (folded_after [] frames.now))) }
{
    out.push('[')?;
    put_each(alloc, out, frames)?;
    out.push(']')?;
    Ok(())
}

// Appends the stacks, separated by commas. A stack begins like the last one that was appended with as many frames as are below each
// frame since then, so no frame is appended twice, and no stack is compared with another. A few long labels may stand in very many
// stacks, so it stops as soon as there is more than a page may have.
fn put_each(alloc: Global, out: &mut String, frames: &[StackFrame]) -> Result<(), PageFault>
    requires { AreAscending [] frames.now }
    ensures json { OnOk result (string_bytes out.new ≡ string_bytes out.old
        ++ join_with_byte 44 (map stack_json (coded_after [] (folded_after [] frames.now)))) }
    ensures full { IfErr result (IsFaultOf (string_bytes out.old
        ++ join_with_byte 44 (map stack_json (coded_after [] (folded_after [] frames.now))))) }
{
    let mut stack = Vec::new(alloc);
    let mut shared = 0;
    let mut comma = "";
    for frame in frames {
        check_length(out.as_bytes())?;
        frame.follow(&mut stack)?;
        shared = shared.min(frame.below);
        if frame.time > 0 {
            out.push_str(comma)?;
            put_coded(alloc, out, shared, &stack[shared..], frame.time)?;
            shared = stack.len();
            comma = ",";
        }
    }
    Ok(())
}

#[tactic(auto, unfolding(crate::specs::Data::stack_json), using(std::proofs::Common::append_assoc))]
fn put_coded(
    alloc: Global,
    out: &mut String,
    shared: usize,
    others: &[&Text],
    time: u64,
) -> Result<(), AllocError>
    ensures { OnOk result (string_bytes out.new ≡ string_bytes out.old ++ stack_json
        (record { shared = shared; others = map (λ name. name.now) others.now; time = time })) }
{
    write!(out, "[{shared},[")?;
    put_names(alloc, out, others)?;
    write!(out, "],\"{time}\"]")
}

// Appends the names as JSON texts, separated by commas.
pub(crate) fn put_names(alloc: Global, out: &mut String, names: &[&Text]) -> Result<(), AllocError>
    ensures { OnOk result (string_bytes out.new ≡ string_bytes out.old
        ++ join_with_byte 44 (map json_text_of (map (λ name. name.now) names.now))) }
{
    let Some((first, later)) = names.split_first() else {
        return Ok(());
    };
    out.push_str(json_text(alloc, first)?.as_str())?;
    for name in later {
        out.push(',')?;
        out.push_str(json_text(alloc, name)?.as_str())?;
    }
    Ok(())
}
