// Lines from a reader.
ghost use Rattle.std.specs.Prelude.{◌≡◌, if◌then◌else◌, Decides, MatchResult};
ghost use Rattle.std.specs.declared.io.ErrorKind.TheVariants.{Interrupted};
ghost use Rattle.lines.specs.Held.{GoesOn, HoldsLine, HoldsNext};

use crate::buffer::LineBuffer;
use std::io;
use std::io::BufRead;

// Where one turn has come to.
#[derive(Clone, Copy)]
enum Turn {
    // within a line
    Within,
    // past a line feed
    Fed,
    // at the end of the input
    End,
}

fn turn_after(ended: bool) -> Turn
    ensures value { result ≡ (if ended then Turn.Fed else Turn.Within) }
{
    if ended { Turn::Fed } else { Turn::Within }
}

// A signal came, and the read is to be tried again.
fn is_interruption(kind: io::ErrorKind) -> bool
    ensures value { Decides result (kind ≡ Interrupted) }
{
    matches!(kind, io::ErrorKind::Interrupted)
}

// Takes what the reader holds of the line.
fn take_held<B: BufRead>(input: &mut B, line: &mut LineBuffer) -> io::Result<Turn>
    ensures after { GoesOn line.old line.new }
    ensures same { line.new.most ≡ line.old.most }
{
    let held = match input.fill_buf() {
        Ok(held) => held,
        // no `?`: an interruption is no error
        Err(e) if is_interruption(e.kind()) => return Ok(Turn::Within),
        Err(e) => return Err(e),
    };
    if held.is_empty() {
        return Ok(Turn::End);
    }
    let taken = line.take(held)?;
    input.consume(taken.count);
    Ok(turn_after(taken.ended))
}

// The next line, without its line feed, in `line`: whether there is one. The last may lack the feed.
pub fn next_line<B: BufRead>(input: &mut B, line: &mut LineBuffer) -> io::Result<bool>
    ensures cases { MatchResult result (λ there. HoldsNext line.new there) (λ _. HoldsLine line.new) }
    ensures same { line.new.most ≡ line.old.most }
{
    line.clear();
    // a reader may have no end, so that no measure falls in a `while let`
    for _ in 0..u64::MAX {
        match take_held(input, line)? {
            Turn::Within => {}
            Turn::Fed => return Ok(true),
            Turn::End => break,
        }
    }
    Ok(!line.is_empty())
}

#[cfg(test)]
mod tests {
    use super::*;
    use std::test::Fail;

    #[test]
    fn reads_each_line(rt: HostRuntime) -> Result<(), Fail> {
        let mut input: &[u8] = b"ab\n\n12345";
        let mut line = LineBuffer::new(rt.alloc(), 3);
        assert!(rt; next_line(&mut input, &mut line)?);
        assert_eq!(rt; line.bytes(), &b"ab"[..]);
        assert!(rt; next_line(&mut input, &mut line)?);
        assert_eq!(rt; line.bytes(), &b""[..]);
        assert!(rt; next_line(&mut input, &mut line)?);
        assert_eq!(rt; line.past(), 2);
        assert!(rt; !next_line(&mut input, &mut line)?);
        Ok(())
    }
}
