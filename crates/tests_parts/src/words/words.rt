use r9_opts::{Job, OptsFault, read_words};
use std::test::Fail;

// Words that ask for nothing.
const REFUSED: [&[&str]; 66] = [
    &[],
    &["--"],
    &["--", "replay"],
    &["help"],
    &["--help"],
    &["-h"],
    &["rep"],
    &["replay", "--help"],
    &["replay", "--version"],
    &["replay", "--size", "64x48", "--size=64x48"],
    &["replay", "--screen", "--screen"],
    &["replay", "--size="],
    &["replay", "--size", ""],
    &["replay", "--size", "-"],
    &["replay", "--size", "0x5"],
    &["replay", "--size", "05x5"],
    &["replay", "--size", "2049x5"],
    &["replay", "--size", "64"],
    &["replay", "--chan", "k9"],
    &["replay", "--", "--screen"],
    &["replay", "--scr"],
    &["replay", "--screen=true"],
    &["replay", "--screen="],
    &["replay", "--size"],
    &["replay", "--size", "--screen"],
    &["replay", "-s"],
    &["replay", "-"],
    &["replay", "x"],
    &["serve", "--conns", "1"],
    &["serve", "--listen", "x"],
    &["serve", "--listen", "x", "--conns=-1"],
    &["serve", "--listen", "x", "--conns", "-1"],
    &["serve", "--listen", "x", "--conns=1", "--workers=17"],
    &["serve", "--listen", "x", "--conns=100001"],
    &["alone"],
    &["alone", "--conn", "0"],
    &["alone", "--conn", "4294967296"],
    &["alone", "--conn", "1", "--screen"],
    &["gen"],
    &["gen", "0"],
    &["gen", "007"],
    &["gen", "100001"],
    &["gen", "+5"],
    &["gen", "5", "6"],
    &["gen", "--", "--", "5"],
    &["gen", "--", "--"],
    &["text"],
    &["text", "--cols", "80"],
    &["text", "--rows", "24"],
    &["text", "--cols", "80", "--rows", "24", "--cols=80"],
    &["text", "--cols", "3", "--rows", "24"],
    &["text", "--cols", "201", "--rows", "24"],
    &["text", "--cols=80", "--rows=3"],
    &["text", "--cols=80", "--rows=101"],
    &["text", "--cols=04", "--rows=24"],
    &["text", "--cols=80", "--rows=+24"],
    &["text", "--cols", "80", "--rows", "-24"],
    &["text", "--cols=80", "--rows="],
    &["text", "--cols=80", "--rows=24", "x"],
    &["text", "--cols=80", "--", "--rows=24"],
    &["text", "--cols=80", "--rows=24", "--chan=k8"],
    &["desk", "x"],
    &["desk", "--", "x"],
    &["desk", "--", "--"],
    &["desk", "--screen"],
    &["desk", "--size", "640x480"],
];

#[test]
fn what_is_not_in_the_grammar_is_refused(rt: HostRuntime) {
    for words in REFUSED {
        assert!(rt; matches!(read_words(rt.alloc(), words), Err(OptsFault::Usage)));
    }
}

#[test]
fn a_server_has_an_address_and_a_count(rt: HostRuntime) -> Result<(), Fail> {
    let words = ["serve", "--conns=3", "--listen", "a=-b"];
    let Ok(
        Job::Serve {
            listen,
            workers,
            conns,
            ..
        },
    ) = read_words(rt.alloc(), &words)
    else {
        return Err("a server")?;
    };
    assert_eq!(rt; listen.as_str(), "a=-b");
    assert_eq!(rt; (workers, conns), (1, 3));
    Ok(())
}

#[test]
fn a_number_stands_before_or_behind_the_ending(rt: HostRuntime) {
    for words in [["gen", "--", "5"], ["gen", "5", "--"]] {
        assert!(rt; matches!(read_words(rt.alloc(), &words), Ok(Job::Gen { number: 5 })));
    }
    assert!(rt;
        matches!(
            read_words(rt.alloc(), &["gen", "100000"]),
            Ok(Job::Gen { number: 100_000 })
        )
    );
}

#[test]
fn options_stand_in_any_order(rt: HostRuntime) {
    let replays: [&[&str]; 3] = [
        &["replay", "--screen"],
        &["replay", "--screen", "--chan=k8", "--size", "16x1"],
        &["replay", "--size=16x1", "--screen", "--chan", "k8", "--"],
    ];
    for words in replays {
        assert!(rt;
            matches!(
                read_words(rt.alloc(), words),
                Ok(Job::Replay { screen: true, .. })
            )
        );
    }
    let words = ["alone", "--conn", "4294967295", "--chan", "k8"];
    assert!(rt;
        matches!(
            read_words(rt.alloc(), &words),
            Ok(Job::Alone {
                session: 4_294_967_295,
                ..
            })
        )
    );
}

#[test]
fn a_window_of_text_has_columns_and_rows(rt: HostRuntime) {
    let windows: [&[&str]; 3] = [
        &["text", "--cols", "200", "--rows", "4"],
        &["text", "--rows=4", "--cols=200"],
        &["text", "--rows", "4", "--cols=200", "--"],
    ];
    for words in windows {
        assert!(rt;
            matches!(
                read_words(rt.alloc(), words),
                Ok(Job::Text { cols: 200, rows: 4 })
            )
        );
    }
    assert!(rt;
        matches!(
            read_words(rt.alloc(), &["text", "--cols=4", "--rows=100"]),
            Ok(Job::Text { cols: 4, rows: 100 })
        )
    );
}

#[test]
fn a_desk_has_no_options(rt: HostRuntime) {
    let desks: [&[&str]; 2] = [&["desk"], &["desk", "--"]];
    for words in desks {
        assert!(rt; matches!(read_words(rt.alloc(), words), Ok(Job::Desk)));
    }
}
