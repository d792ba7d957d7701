//! Runs many texts of a tender in one go: each is answered as the program `award` answers it.
//!
//! The texts stand on standard input, with a line `==` of their own between each two; the bytes around that line are
//! the texts' own, so a text may also lack its last line feed.
#![tactic(auto)]

ghost use Rattle.std.specs.Prelude.{◌<◌, length, IfSome};

use std::io;
use std::io::{Read, Write};
use tender_text::report;

/// What stands between two texts.
const SEPARATOR: &[u8] = b"\n==\n";

/// A text up to the next separator, and what follows the separator.
fn cut(texts: &[u8]) -> Option<(&[u8], &[u8])>
    ensures { IfSome result (λ parts. length parts.1.now < length texts.now) }
{
    let at = texts
        .windows(SEPARATOR.len())
        .position(|bytes| bytes == SEPARATOR)?;
    Some((&texts[..at], &texts[at + SEPARATOR.len()..]))
}

fn main(rt: HostRuntime) -> io::Result<()> {
    let heap = rt.alloc();
    let mut input = Vec::new(heap);
    rt.stdin().read_to_end(&mut input)?;
    let mut texts = input.as_slice();
    while let Some((text, rest)) = cut(texts) {
        let answer = report(heap, text)?;
        rt.stdout().write_all(answer.as_slice())?;
        rt.stdout().write_all(b"==\n")?;
        texts = rest;
    }
    Ok(())
}

#[cfg(test)]
mod tests {
    use book::{Book, Deposit};
    use calendar::Calendar;
    use std::test::Fail;
    use tender_text::report;

    /// Two sheets of one candidate, for the second period of a month.
    const TWO_SHEETS: &[u8] = b"A;1;
seuil_minimum;10;
DMO;13;
DOmax;120;
Obs_Stat;0;
DOmin;0;
1;1;0;
10;
2;
36,5;
A;2;
seuil_minimum;20;
DMO;30;
DOmax;90;
Obs_Stat;1;
DOmin;0;
1;1;0;
20;
2;
40;
";

    #[test]
    fn a_deposit_opens(rt: HostRuntime) -> Result<(), Fail> {
        let calendar = Calendar::open(2021, 12, &[])
            .ok()
            .ok_or("the month is refused")?;
        let deposit = Deposit::open(rt.alloc(), calendar, 0, TWO_SHEETS)
            .ok()
            .ok_or("the deposit is refused")?;
        assert_eq!(rt; deposit.offer_count(), 2);
        assert_eq!(rt; deposit.price(0, 2, 0), Some(3_650));
        assert_eq!(rt; deposit.price(0, 1, 0), None);
        assert_eq!(rt; deposit.number(1), Some(2));
        Ok(())
    }

    #[test]
    fn too_long(rt: HostRuntime) -> Result<(), Fail> {
        let heap = rt.alloc();
        let long = vec![in heap; b'1'; 32_769]?;
        assert_eq!(rt;
            report(heap, long.as_slice())?.as_slice(),
            b"refused;13;0;\n".as_slice()
        );
        let longest = vec![in heap; b'1'; 32_768]?;
        assert_eq!(rt;
            report(heap, longest.as_slice())?.as_slice(),
            b"refused;1;1;\n".as_slice()
        );
        Ok(())
    }
}
