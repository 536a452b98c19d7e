//! Definitions: what the ids of connections and the names of the draw device refer to, and what goes when a reference goes
//! (draw(3)). No code: the functions have laws as their contracts, and no bodies.
#![tactic(auto)]

ghost use Rattle.std.specs.Prelude.{◌≡◌, ◌↔◌, ℕ, List, Ok, []};
ghost use Rattle.model_draw_parts.specs.images.Book.{Book};
ghost use Rattle.model_draw_parts.specs.images.Release.{FindsAll, Freed, HasScreens, IsComplete, IsFreed, IsInOrder, KeepsOthers, KeepsRest, Releases, free_id, free_screen, leave, released};
ghost use Rattle.model_draw_parts.specs.declared.images.Thing.{Thing};

use r9_text::Bytes;

/// An image id of a connection, and, where it was made by a name, the number of that name's tie.
#[derive(Clone, Copy, PartialEq, Eq, Debug)]
pub struct ImageId {
    pub client: u64,
    pub id: u32,
    pub image: u32,
    pub tie: Option<u64>,
}

/// A screen id of a connection. It is in the public space where it is public.
#[derive(Clone, Copy, PartialEq, Eq, Debug)]
pub struct ScreenId {
    pub client: u64,
    pub id: u32,
    pub screen: u32,
    pub public: bool,
}

/// A name's tie to an image, with the id by which it was made. Each tie has a number of its own, so that a name that is tied
/// anew is another tie.
#[derive(Debug, Drop)]
pub struct Tie {
    pub name: Bytes,
    pub number: u64,
    pub image: u32,
    pub client: u64,
    pub id: u32,
}

/// An image made a screen, and the image that fills what its windows uncover.
#[derive(Clone, Copy, PartialEq, Eq, Debug)]
pub struct Screen {
    pub image: u32,
    pub fill: u32,
}

/// An image that is a window, and the screen on which it stands.
#[derive(Clone, Copy, PartialEq, Eq, Debug)]
pub struct OnScreen {
    pub image: u32,
    pub screen: u32,
}

/// What goes when nothing refers to it any more.
#[derive(Clone, Copy, PartialEq, Eq, Debug)]
pub enum Thing {
    Image(u32),
    Screen(u32),
}

/// A release ends, and what it leaves is what is computed.
pub fn release_ends()
    ensures { (after freed : Freed) (things : List Thing) → Releases after freed things ↔ (after ≡ released freed things) }
{}

/// What goes where an image id is freed.
pub fn free_id_frees()
    ensures freed { (book : Book) (client id : ℕ) (freed : Freed) → HasScreens book → free_id book client id ≡ Ok freed → IsFreed book freed }
    ensures complete { (book : Book) (client id : ℕ) (freed : Freed) → FindsAll book → free_id book client id ≡ Ok freed → IsComplete book freed }
    ensures finds { (book : Book) (client id : ℕ) (freed : Freed) → FindsAll book → free_id book client id ≡ Ok freed → FindsAll freed.book }
    ensures others { (book : Book) (client id : ℕ) (freed : Freed) → free_id book client id ≡ Ok freed → KeepsOthers book client freed.book }
    ensures order { (book : Book) (client id : ℕ) (freed : Freed) → free_id book client id ≡ Ok freed → IsInOrder book [] freed.gone }
    ensures rest { (book : Book) (client id : ℕ) (freed : Freed) → free_id book client id ≡ Ok freed → KeepsRest book freed }
{}

/// What goes where a screen id is freed.
pub fn free_screen_frees()
    ensures freed { (book : Book) (client id : ℕ) (freed : Freed) → HasScreens book → free_screen book client id ≡ Ok freed → IsFreed book freed }
    ensures complete { (book : Book) (client id : ℕ) (freed : Freed) → FindsAll book → free_screen book client id ≡ Ok freed → IsComplete book freed }
    ensures finds { (book : Book) (client id : ℕ) (freed : Freed) → FindsAll book → free_screen book client id ≡ Ok freed → FindsAll freed.book }
    ensures others { (book : Book) (client id : ℕ) (freed : Freed) → free_screen book client id ≡ Ok freed → KeepsOthers book client freed.book }
    ensures order { (book : Book) (client id : ℕ) (freed : Freed) → free_screen book client id ≡ Ok freed → IsInOrder book [] freed.gone }
    ensures rest { (book : Book) (client id : ℕ) (freed : Freed) → free_screen book client id ≡ Ok freed → KeepsRest book freed }
{}

/// What goes where a connection ends.
pub fn leave_frees()
    ensures freed { (book : Book) (client : ℕ) → HasScreens book → IsFreed book (leave book client) }
    ensures complete { (book : Book) (client : ℕ) → FindsAll book → IsComplete book (leave book client) }
    ensures finds { (book : Book) (client : ℕ) → FindsAll book → FindsAll (leave book client).book }
    ensures others { (book : Book) (client : ℕ) → KeepsOthers book client (leave book client).book }
    ensures order { (book : Book) (client : ℕ) → IsInOrder book [] (leave book client).gone }
    ensures rest { (book : Book) (client : ℕ) → KeepsRest book (leave book client) }
{}
