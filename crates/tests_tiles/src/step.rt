// What a draw device is asked, and how messages spell it (draw(3)).
use r9_memory::Memory;
use r9_text::Bytes;

// A point or a rectangle is its numbers in order, x before y and min before max.
#[derive(Drop)]
pub enum Step {
    // A red image of an id, on a screen, or on none for 0.
    Image(i32, i32, [i32; 4]),
    // A screen of an id, on an image. Its fill is the image 6.
    Screen(i32, i32),
    // A window has its min at the first point, and comes to the second of its screen.
    Origin(i32, [i32; 2], [i32; 2]),
    // A window comes to the top.
    Raise(i32),
    // An image goes.
    Free(i32),
    // A screen goes.
    FreeScreen(i32),
    // The window manager gives the display a width and a height.
    Size(u32, u32),
}

// Four bytes of each, the lowest first.
fn push_numbers(bytes: &mut Bytes, numbers: &[i32]) -> Result<(), Memory> {
    for number in numbers {
        bytes.push_all(&number.to_le_bytes())?;
    }
    Ok(())
}

// A letter, bytes with it, and numbers.
fn push(bytes: &mut Bytes, head: &[u8], numbers: &[i32]) -> Result<(), Memory> {
    bytes.push_all(head)?;
    push_numbers(bytes, numbers)
}

fn push_image(bytes: &mut Bytes, id: i32, screen: i32, r: &[i32]) -> Result<(), Memory> {
    push(bytes, b"b", &[id, screen])?;
    push(bytes, b"\0(\x18\x08h\0", r)?;
    push_numbers(bytes, r)?;
    bytes.push_all(b"\xff\0\0\xff")
}

fn push_screen(bytes: &mut Bytes, id: i32, image: i32) -> Result<(), Memory> {
    push(bytes, b"A", &[id, image, 6])?;
    bytes.push(0)
}

fn push_origin(bytes: &mut Bytes, id: i32, min: &[i32], place: &[i32]) -> Result<(), Memory> {
    push(bytes, b"o", &[id])?;
    push_numbers(bytes, min)?;
    push_numbers(bytes, place)
}

// The message of a step, or nothing where it has none.
pub fn push_step(bytes: &mut Bytes, step: &Step) -> Result<(), Memory> {
    match step {
        Step::Image(id, screen, r) => push_image(bytes, *id, *screen, r),
        Step::Screen(id, image) => push_screen(bytes, *id, *image),
        Step::Origin(id, min, place) => push_origin(bytes, *id, min, place),
        Step::Raise(id) => push(bytes, b"t\x01\x01\0", &[*id]),
        Step::Free(id) => push(bytes, b"f", &[*id]),
        Step::FreeScreen(id) => push(bytes, b"F", &[*id]),
        Step::Size(_, _) => Ok(()),
    }
}
