//! Merges the templates of a text.
ghost use Rattle.std.specs.Prelude.{◌≡◌, false, string_bytes, IfOk, MatchOption, OnOk};
ghost use Rattle.template_names.specs.{Merged.merged, Writing.{IsReady, Writes}};

use crate::marks::{Mark, Marks};
use std::alloc::{AllocError, Global};

/// The merged text, from the left: a `<` that has a match is written `<$>`, what stands up to its match is left out, and all else is
/// written as it is. None where no `<` has a match. The time grows as the text does.
pub fn merged(alloc: Global, text: &str) -> Result<Option<String>, AllocError>
    ensures { IfOk result (λ found. MatchOption found (merged text.now ≡ text.now)
        (λ whole. string_bytes whole ≡ merged text.now)) }
{
    if !has_match(text) {
        return Ok(None);
    }
    match String::from_utf8(written(alloc, text)?) {
        Ok(whole) => Ok(Some(whole)),
        Err(_) => unreachable!(),
    }
}

// Whether a `<` of the text has a match.
fn has_match(text: &str) -> bool
    ensures { result ≡ false → merged text.now ≡ text.now }
{
    let mut marks = Marks::of(text.as_bytes());
    let mut depth = 0_usize;
    while let Some(mark) = marks.take() {
        match mark {
            Mark::Open => depth += 1,
            Mark::Close if depth > 0 => return true,
            _ => {}
        }
    }
    false
}

// The bytes of the merged text.
fn written(alloc: Global, text: &str) -> Result<Vec<u8>, AllocError>
    ensures { IfOk result (λ bytes. bytes.items ≡ merged text.now) }
{
    let mut writer = Writer {
        written: Vec::with_capacity(alloc, text.len())?,
        opened: Vec::new(alloc),
    };
    let mut marks = Marks::of(text.as_bytes());
    while let Some(mark) = marks.take() {
        writer.write(mark)?;
    }
    Ok(writer.written)
}

// A merged text that is written mark by mark: each `<` as it is, until its match takes it back with all that is behind it. So a text
// whose `<` have no matches takes no longer than others.
#[derive(Drop)]
struct Writer {
    written: Vec<u8>,
    // Where the `<` stand that are open.
    opened: Vec<usize>,
}

impl Writer {
    fn write(&mut self, mark: Mark) -> Result<(), AllocError>
        requires { IsReady self.old }
        ensures { OnOk result (Writes self.old self.new mark) }
    {
        match mark {
            Mark::Open => self.write_open(),
            Mark::Close => self.write_close(),
            Mark::Other(byte) => Ok(self.written.push(byte)?),
        }
    }

    fn write_open(&mut self) -> Result<(), AllocError>
        requires { IsReady self.old }
        ensures { OnOk result (Writes self.old self.new Mark.Open) }
    {
        self.opened.push(self.written.len())?;
        Ok(self.written.push(b'<')?)
    }

    fn write_close(&mut self) -> Result<(), AllocError>
        requires { IsReady self.old }
        ensures { OnOk result (Writes self.old self.new Mark.Close) }
    {
        match self.opened.pop() {
            Some(place) => {
                self.written.truncate(place);
                self.written.extend_from_slice(b"<$>")?;
                Ok(())
            }
            None => Ok(self.written.push(b'>')?),
        }
    }
}

#[cfg(test)]
mod tests {
    use super::*;
    use std::test::Fail;

    #[test]
    fn merges(rt: HostRuntime) -> Result<(), Fail> {
        let text = merged(rt.alloc(), "std::map<int, foo<bar>>::at")?;
        let text = text.ok_or("nothing merged")?;
        assert_eq!(rt; text.as_str(), "std::map<$>::at");
        Ok(())
    }
}
