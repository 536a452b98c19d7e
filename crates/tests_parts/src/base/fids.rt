ghost use Rattle.std.specs.Prelude.{◌≡◌, false};

use r9_fids::{FidFault, FidTable, Openable};
use std::test::Fail;

#[derive(Debug, Drop)]
struct File {
    name: char,
    opened: bool,
}

impl Openable for File {
    ghost is_open = { λ file. file.opened };

    fn is_open(&self) -> bool {
        self.opened
    }
}

// A file that is not open, and one that is; a fid is bound once (intro(5)).
#[test]
fn a_fid_names_a_file(rt: HostRuntime) -> Result<(), Fail> {
    let mut fids = FidTable::new(rt.alloc());
    for (fid, name, bound) in [
        (7, 'b', Ok(())),
        (0, 'a', Ok(())),
        (7, 'd', Err(FidFault::Refused(33))),
    ] {
        let opened = name == 'b';
        assert_eq!(rt; fids.bind(fid, File { name, opened }), bound);
    }
    assert_eq!(rt; fids.check_open(7, true), Ok(()));
    assert_eq!(rt; fids.check_open(0, false), Ok(()));
    let mut names = fids.iter().map(|(fid, file)| (*fid, file.name));
    assert_eq!(rt; names.next(), Some((0, 'a')));
    assert_eq!(rt; names.next(), Some((7, 'b')));
    Ok(())
}
