// There is one tile for each pair of a window and a cell of it, of 32 by 32 points counted from its min, that has a hidden point. The
// display has 64 by 48 points. Behind each step stands how many tiles there are then.
use crate::device::leaves;
use crate::step::Step;
use std::test::Fail;

// The fill of screens, and a screen of the display.
const FILL: Step = Step::Image(6, 0, [0, 0, 1, 1]);

const SCREEN: Step = Step::Screen(1, 0);

// Windows 10 and 11 have the point (9,9) alone in common. At last columns of window 11 lie left of the display.
#[test]
fn a_common_point(rt: HostRuntime) -> Result<(), Fail> {
    let steps = [
        (FILL, 0),
        (SCREEN, 0),
        (Step::Image(10, 1, [0, 0, 10, 10]), 0),
        (Step::Image(11, 1, [9, 9, 20, 20]), 1),
        (Step::Raise(10), 1),
        (Step::Free(10), 0),
        (Step::Origin(11, [9, 9], [-5, 9]), 1),
    ];
    leaves(rt.alloc(), &steps)?;
    Ok(())
}

// Two cells of window 20 lie past the right edge of the display, in part or whole. Window 21 stands on it, and 22 on that: each shows
// whole where it stands.
#[test]
fn windows_in_windows(rt: HostRuntime) -> Result<(), Fail> {
    let steps = [
        (FILL, 0),
        (SCREEN, 0),
        (Step::Image(20, 1, [40, 0, 80, 20]), 2),
        (Step::Screen(2, 20), 2),
        (Step::Image(21, 2, [60, 0, 76, 16]), 2),
        (Step::Screen(3, 21), 2),
        (Step::Image(22, 3, [66, 2, 70, 6]), 2),
        (Step::Origin(20, [40, 0], [20, 0]), 0),
        (Step::Free(22), 0),
        (Step::FreeScreen(3), 0),
        (Step::Free(21), 0),
        (Step::FreeScreen(2), 0),
        (Step::Free(20), 0),
    ];
    leaves(rt.alloc(), &steps)?;
    Ok(())
}

// Four by four cells, the last ones of four columns or rows.
#[test]
fn a_window_outside(rt: HostRuntime) -> Result<(), Fail> {
    let steps = [
        (FILL, 0),
        (SCREEN, 0),
        (Step::Image(10, 1, [100, 0, 200, 100]), 16),
        (Step::Free(10), 0),
    ];
    leaves(rt.alloc(), &steps)?;
    Ok(())
}

// Window 1 has two cells, the second from column 42 on, and window 2 has one. On the smaller display all three have hidden points, until
// window 2 comes to its corner. On the old one window 2 hides a part of the first cell alone.
#[test]
fn sizes_of_the_display(rt: HostRuntime) -> Result<(), Fail> {
    let steps = [
        (FILL, 0),
        (SCREEN, 0),
        (Step::Image(1, 1, [10, 10, 50, 40]), 0),
        (Step::Image(2, 1, [40, 30, 60, 46]), 2),
        (Step::Size(32, 24), 3),
        (Step::Origin(2, [40, 30], [0, 0]), 2),
        (Step::Size(64, 48), 1),
    ];
    leaves(rt.alloc(), &steps)?;
    Ok(())
}

// Each point of a window is counted when it gets its colour, and none more than twice. An image that stands nowhere counts none.
#[test]
fn pixels_are_counted(rt: HostRuntime) -> Result<(), Fail> {
    let steps = [
        (FILL, 0),
        (SCREEN, 0),
        (Step::Image(10, 1, [0, 0, 10, 10]), 0),
    ];
    let pixels = leaves(rt.alloc(), &steps)?;
    assert!(rt; (100..=200).contains(&pixels), "{pixels}");
    Ok(())
}
