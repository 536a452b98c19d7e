// A cell of the display, of 32 by 32 pixels, is marked where a pixel of it is written. The display has 64 by 48 at first, and so two by
// two cells. Behind each step stand the cells that it marks.
use crate::device::marks;
use crate::step::Step;
use std::test::Fail;

// Window 11 has points in all four cells. Window 12 covers all, and 10 comes above it.
#[test]
fn cells_are_marked(rt: HostRuntime) -> Result<(), Fail> {
    let four: &[(u32, u32)] = &[(0, 0), (1, 0), (0, 1), (1, 1)];
    let steps: [(Step, &[(u32, u32)]); 8] = [
        (Step::Image(6, 0, [0, 0, 1, 1]), &[]),
        (Step::Screen(1, 0), &[]),
        (Step::Image(10, 1, [0, 0, 10, 10]), &[(0, 0)]),
        (Step::Image(11, 1, [30, 30, 40, 40]), four),
        (Step::Image(12, 1, [0, 0, 64, 48]), four),
        (Step::Raise(10), &[(0, 0)]),
        (Step::Free(12), four),
        (
            Step::Size(100, 48),
            &[
                (0, 0),
                (1, 0),
                (2, 0),
                (3, 0),
                (0, 1),
                (1, 1),
                (2, 1),
                (3, 1),
            ],
        ),
    ];
    marks(rt.alloc(), &steps)
}
