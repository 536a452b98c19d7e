use model_client::desk::Text;
use model_files::mouse::Mouse;
use r9_menu::{Desk, Texts};
use std::test::Fail;

fn event(x: i32, y: i32, buttons: u8) -> Mouse {
    Mouse {
        x,
        y,
        buttons,
        msec: 7,
    }
}

// The text that is written, or none.
fn text_of(texts: &Texts) -> &[u8] {
    match texts.as_slice() {
        [] => b"",
        [Text::Wctl(bytes) | Text::Mousein(bytes), ..] => bytes.as_slice(),
    }
}

// A window is swept, pressed, moved, resized and hidden, each by the menu, and then nothing is there.
#[test]
fn a_window_goes_through_the_menu(rt: HostRuntime) -> Result<(), Fail> {
    let mut desk = Desk::new(rt.alloc())?;
    let rows = [
        (100, 100, 4, b"new -r 100 100 148 188".as_slice()),
        (110, 110, 0, b"delete -id 1"),
        (200, 200, 1, b""),
        (300, 280, 0, b"new -r 200 200 300 280"),
        (
            210,
            210,
            1,
            b"m        210         210           1           7 ",
        ),
        (
            210,
            210,
            0,
            b"m        210         210           0           7 ",
        ),
        (400, 300, 4, b"new -r 400 300 448 388"),
        (410, 340, 0, b"delete -id 3"),
        (250, 250, 1, b""),
        (260, 245, 0, b"move -minx +10 -miny -5 -id 2"),
        (400, 300, 4, b"new -r 400 300 448 388"),
        (410, 324, 0, b"delete -id 4"),
        (250, 250, 1, b""),
        (250, 250, 0, b""),
        (10, 20, 1, b""),
        (60, 90, 0, b"resize -r 10 20 60 90 -id 2"),
        (400, 300, 4, b"new -r 400 300 448 388"),
        (410, 370, 0, b"delete -id 5"),
        (30, 30, 1, b"hide -id 2"),
        (30, 30, 0, b""),
        (
            30,
            30,
            1,
            b"m         30          30           1           7 ",
        ),
    ];
    for (x, y, buttons, text) in rows {
        let texts = desk.feed(event(x, y, buttons))?;
        assert_eq!(rt; text_of(&texts), text);
    }
    Ok(())
}
