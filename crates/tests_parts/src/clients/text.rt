use r9_textwin::{Move, TextWin};
use std::test::Fail;

// Five characters in a window of four columns, and then newlines until it scrolls.
#[test]
fn rows_fill_and_scroll(rt: HostRuntime) -> Result<(), Fail> {
    let mut window = TextWin::new(rt.alloc(), 4, 4, 1, 1)?;
    let moves = window.feed(b"abcde\n")?;
    let mut put = Vec::new(rt.alloc());
    for next in moves.as_slice() {
        let Move::Put { row, column, codes } = next else {
            return Err("no move that scrolls")?;
        };
        put.push((*row, *column, codes.as_slice()))?;
    }
    let wanted: [(u32, u32, &[u8]); 2] = [(0, 0, &[65, 66, 67, 68]), (1, 0, &[69])];
    assert_eq!(rt; put.as_slice(), wanted.as_slice());
    assert_eq!(rt; window.feed(b"\n")?.as_slice().len(), 0);
    assert!(rt; matches!(window.feed(b"\n")?.as_slice(), [Move::Scroll]));
    Ok(())
}
