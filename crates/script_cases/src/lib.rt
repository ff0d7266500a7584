//! The columns of faults, by example.
#![tactic(auto)]

ghost use Rattle.std.specs.Prelude.{◌≡◌};
ghost use Rattle.script.specs.Parse.{parse};
ghost use Rattle.script_cases.specs.Columns.{column_of};

use script::read::read;

/// The column of the line's fault, if it has one.
pub fn column(line: &[u8]) -> Option<usize>
    ensures { result ≡ column_of (parse line.now) }
{
    read(line).err().map(|fault| fault.column)
}

#[cfg(test)]
mod tests {
    use super::column;

    #[test]
    fn lines(rt: HostRuntime) {
        assert_eq!(rt; column(b""), None);
        assert_eq!(rt; column(b"# any \xff"), None);
        assert_eq!(rt; column(b"settings 64 8"), None);
        assert_eq!(rt; column(b"R listen on"), None);
        assert_eq!(rt; column(b"open 18446744073709551615"), None);
        assert_eq!(rt; column(b"L give 7"), None);
        assert_eq!(rt; column(b"give 7 hi%20there%00%25%7F%FF"), None);
        assert_eq!(rt; column(b"L send 7 0 8"), None);
        assert_eq!(rt; column(b"damage R 2 0 255 13"), None);
        assert_eq!(rt; column(b"drive L 7"), None);
        assert_eq!(rt; column(b"tick 0"), None);
    }

    #[test]
    fn words(rt: HostRuntime) {
        assert_eq!(rt; column(b"lisxen on"), Some(4));
        assert_eq!(rt; column(b"L settings 1 2"), Some(5));
        assert_eq!(rt; column(b"opened 7"), Some(5));
        assert_eq!(rt; column(b"R bring L 1 2"), Some(5));
        assert_eq!(rt; column(b"open"), Some(5));
        assert_eq!(rt; column(b"open "), Some(6));
        assert_eq!(rt; column(b"accept 3"), Some(7));
        assert_eq!(rt; column(b"open 7 8"), Some(7));
        assert_eq!(rt; column(b" open 7"), Some(1));
        assert_eq!(rt; column(b"open  7"), Some(6));
        assert_eq!(rt; column(b"open 7 "), Some(7));
        assert_eq!(rt; column(b"give 7 "), Some(8));
        assert_eq!(rt; column(b"accept\r"), Some(7));
    }

    #[test]
    fn numbers(rt: HostRuntime) {
        assert_eq!(rt; column(b"open x"), Some(6));
        assert_eq!(rt; column(b"open -1"), Some(6));
        assert_eq!(rt; column(b"open 7x"), Some(7));
        assert_eq!(rt; column(b"open 07"), Some(7));
        assert_eq!(rt; column(b"tick 18446744073709551616"), Some(25));
        assert_eq!(rt; column(b"damage L 1 0 256 7"), Some(16));
    }

    #[test]
    fn data(rt: HostRuntime) {
        assert_eq!(rt; column(b"give 7 a\x80"), Some(9));
        assert_eq!(rt; column(b"give 7 %g0"), Some(9));
        assert_eq!(rt; column(b"give 7 %0a"), Some(10));
        assert_eq!(rt; column(b"give 7 %"), Some(9));
        assert_eq!(rt; column(b"give 7 %41"), Some(9));
        assert_eq!(rt; column(b"give 7 %21"), Some(10));
        assert_eq!(rt; column(b"give 7 %7E"), Some(10));
        let mut long = [b'a'; 1032];
        long[..7].copy_from_slice(b"give 7 ");
        assert_eq!(rt; column(&long[0..1031]), None);
        assert_eq!(rt; column(&long), Some(1032));
    }
}
