//! Whether an order is about windows and rios that are there.

ghost use Rattle.model_draw.specs.draw.Orders.{can_keep, fits, has_rio, has_window, image_shown, is_near_point, is_window_rect, rio_screen};
ghost use Rattle.model_draw_parts.specs.images.Book.{image_of, screen_of};
ghost use Rattle.r9_device.specs.device.Live.{IsLiveIn};
ghost use Rattle.r9_device.specs.device.World.{world_of};
ghost use Rattle.r9_event.specs.declared.event.rio.Order.TheVariants.{Host};
ghost use Rattle.r9_draw.specs.orders.Ordering.{IsOther};
ghost use Rattle.std.specs.Prelude.{IfSome, Some, false, is_some, not, true, ℕ, ◌&&◌, ◌==◌, ◌||◌, ◌≡◌};

use crate::orders::display::can_resize;
use crate::orders::rects::{is_as_high, is_as_wide, is_window_rect};
use r9_device::device::{Device, is_near_point};
use r9_event::event::Order;
use r9_geom::Rect;
use r9_layers::ImageNo;

// The screen of the rio in a window, or the root rio's of 0.
pub(crate) fn rio_screen(device: &Device, host: u32) -> u32
    requires { has_rio (world_of device.now) host ≡ true }
    ensures { result ≡ rio_screen (world_of device.now) host }
{
    match device.book.screen(0, host) {
        Ok(screen) => screen,
        Err(_) => unreachable!(),
    }
}

// Whether there is a rio in a window, or the root's.
pub(crate) fn has_rio(device: &Device, host: u32) -> bool
    ensures { result ≡ has_rio (world_of device.now) host }
{
    device.book.screen(0, host).is_ok()
}

// The image of a window, and the screen that it stands on.
#[derive(Clone, Copy)]
pub(crate) struct Shown {
    pub image: ImageNo,
    pub screen: u32,
}

// The image of a window, where there is one, which stands on a screen.
pub(crate) fn window_shown(device: &Device, window: u32) -> Option<Shown>
    ensures there { is_some result ≡ has_window (world_of device.now) window }
    ensures image { IfSome result (λ s. s.image.0 ≡ image_shown (world_of device.now) window) }
    ensures screen { IfSome result (λ s. screen_of (world_of device.now).book s.image.0 ≡ Some s.screen) }
    ensures live { IfSome result (λ s. IsLiveIn (world_of device.now) s.image.0) }
{
    if window == 0 {
        return None;
    }
    let image = match device.book.shown(0, window) {
        Some(image) => image,
        None => return None,
    };
    match device.book.screen_of(image) {
        Some(screen) => Some(Shown {
            image: ImageNo(image),
            screen,
        }),
        None => None,
    }
}

// Whether there is a window, which stands on a screen.
fn has_window(device: &Device, window: u32) -> bool
    ensures { result ≡ has_window (world_of device.now) window }
{
    window_shown(device, window).is_some()
}

// Whether what an image shows can be kept in a rectangle on another image.
fn can_keep(device: &Device, image: ImageNo, parent: ImageNo, r: &Rect) -> bool
    requires live { IsLiveIn (world_of device.now) image.0 }
    requires parent { IsLiveIn (world_of device.now) parent.0 }
    requires rect { is_window_rect r.now ≡ true }
    ensures { (window screen : ℕ) → image.0 ≡ image_shown (world_of device.now) window → parent.0 ≡ image_of (world_of device.now).book screen → result ≡ can_keep (world_of device.now) window screen r.now }
{
    let old = device.image_info(image);
    let parent = device.image_info(parent);
    is_as_wide(r, &old.r) && is_as_high(r, &old.r) && old.chan.word() == parent.chan.word()
}

// Whether a window may have the rectangle on another image, and keep what its image shows where it has to.
pub(crate) fn can_come(
    device: &Device,
    image: ImageNo,
    parent: ImageNo,
    r: &Rect,
    keep: bool,
) -> bool
    requires live { IsLiveIn (world_of device.now) image.0 }
    requires parent { IsLiveIn (world_of device.now) parent.0 }
    ensures { (window screen : ℕ) → image.0 ≡ image_shown (world_of device.now) window → parent.0 ≡ image_of (world_of device.now).book screen → result ≡ (is_window_rect r.now && (not keep || can_keep (world_of device.now) window screen r.now)) }
{
    is_window_rect(r) && (!keep || can_keep(device, image, parent, r))
}

// Whether the window's image may have a rio.
fn can_host(device: &Device, window: u32) -> bool
    ensures { result ≡ fits (world_of device.now) (Host window false) }
{
    has_window(device, window)
        && has_rio(device, 0)
        && is_window_rect(&device.rect(device.image_shown(window)))
}

// Whether an order is about windows and rios that are there. For another image of a window `next_of` tells it.
pub(crate) fn fits(device: &Device, order: &Order) -> bool
    requires { IsOther order.now }
    ensures { result ≡ fits (world_of device.now) order.now }
{
    match order {
        Order::Make {
            window,
            host,
            r,
            ..
        } => has_rio(device, *host) && !device.knows(0, *window) && is_window_rect(r),
        Order::Place { window, at } => has_window(device, *window) && is_near_point(at),
        Order::Replace { .. } => unreachable!(),
        Order::Raise { window } | Order::Lower { window } | Order::Drop { window } => {
            has_window(device, *window)
        }
        Order::Host { window, .. } => can_host(device, *window),
        Order::Leave { client } => device.is_live(*client),
        Order::Size { width, height } => can_resize(device, *width, *height),
    }
}
