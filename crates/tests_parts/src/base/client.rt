ghost use Rattle.std.specs.Prelude.{IsSome, IfOk, OnOk};
ghost use Rattle.model_text.specs.text.Map.{lookup};

use r9_device::client::{Client, Clients, Sizes, font_of, lives, put_font};
use r9_fonts::Font;
use std::alloc::Global;
use std::test::Fail;

// Connection 1.
fn connected(alloc: Global) -> Result<Clients, Fail>
    ensures { IfOk result (λ clients. IsSome (lookup clients.entries 1)) }
{
    let mut clients = Clients::new(alloc);
    clients.insert(1, Client::new(alloc))?;
    if lives(&clients, 1) {
        return Ok(clients);
    }
    Err("not live")?
}

#[test]
fn a_connection_keeps_sizes_and_fonts(rt: HostRuntime) -> Result<(), Fail> {
    let mut sizes = Sizes::new(rt.alloc());
    sizes.reserve()?;
    sizes.set(9, 300);
    assert_eq!(rt; sizes.total(), 300);
    let mut clients = connected(rt.alloc())?;
    put_font(&mut clients, 1, 7, Font::new(rt.alloc(), 2, 6))?;
    if lives(&clients, 1) {
        assert_eq!(rt; font_of(&clients, 1, 7).map(Font::ascent), Some(6));
    }
    Ok(())
}
