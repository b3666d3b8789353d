// Replies, written out by hand: those too that no script of today is answered.
use qg_num::{
    Address, Answer, Counters, Generation, GroupId, NoMemory, OwnerList, Piece, Pieces, Refusal,
    RootId, Row, Rows, Rule, Which,
};
use qg_script::{Text, write_broken, write_differs, write_no_line, write_reply};
use std::alloc::Global;
use std::process::Abort;
use std::test::Fail;

// Rows of two groups.
fn two_rows(alloc: Global) -> Result<Rows, NoMemory> {
    let mut rows = Rows::new(alloc);
    rows.push(Row {
        group: GroupId::from_number(5),
        counters: Counters {
            rfer: 16384,
            excl: 0,
        },
        max_rfer: None,
        max_excl: Some(18446744073709551615),
    })?;
    rows.push(Row {
        group: GroupId::from_number(281474976710663),
        counters: Counters {
            rfer: 40960,
            excl: 24576,
        },
        max_rfer: Some(50000),
        max_excl: None,
    })?;
    Ok(rows)
}

// The last sector but one of an extent of four.
fn one_piece(alloc: Global) -> Result<Pieces, NoMemory> {
    let mut pieces = Pieces::new(alloc);
    pieces.push(Piece {
        position: 0,
        len: 4096,
        extent: Address::new(67174400),
        offset: 8192,
        stamp: Generation::new(2),
        extent_bytes: 16384,
    })?;
    Ok(pieces)
}

// Each answer has this reply.
fn each_replies(rt: &impl Abort, alloc: Global, replies: &[(Answer, &[u8])]) {
    let mut text = Text::new(alloc);
    for (answer, bytes) in replies {
        assert!(rt; write_reply(answer, &mut text) == Ok(()));
        assert!(rt; text.as_slice() == *bytes);
        text.clear();
    }
}

#[test]
fn what_was_done_is_told(rt: HostRuntime) -> Result<(), Fail> {
    let alloc = rt.alloc();
    let nodes = Refusal::NoNodes {
        free: 60,
        need: 228,
    };
    let quota = Refusal::Quota {
        group: GroupId::from_number(281474976710663),
        which: Which::Excl,
    };
    let extent = Answer::Extent(Address::new(67174400));
    let replies: [(Answer, &[u8]); 7] = [
        (Answer::Done, b"ok\n"),
        (Answer::Commit(Generation::new(2)), b"ok commit 2\n"),
        (Answer::Sub(RootId::new(256)), b"ok sub 256\n"),
        (extent, b"ok extent 67174400\n"),
        (Answer::Refused(Refusal::NoQuota), b"no off\n"),
        (Answer::Refused(nodes), b"no nodes 60 228\n"),
        (Answer::Refused(quota), b"no quota 1/7 excl\n"),
    ];
    each_replies(&rt, alloc, &replies);
    Ok(())
}

#[test]
fn lists_have_a_line_for_each(rt: HostRuntime) -> Result<(), Fail> {
    let alloc = rt.alloc();
    let shown =
        b"0/5 16384 0 none 18446744073709551615\n1/7 40960 24576 50000 none\nok\n".as_slice();
    let file = Answer::File {
        size: 5000,
        pieces: one_piece(alloc)?,
    };
    let empty = Answer::File {
        size: 0,
        pieces: Pieces::new(alloc),
    };
    let mut owners = OwnerList::new(alloc);
    owners.push(RootId::new(5))?;
    owners.push(RootId::new(256))?;
    let replies: [(Answer, &[u8]); 6] = [
        (Answer::Shown(two_rows(alloc)?), shown),
        (Answer::Shown(Rows::new(alloc)), b"ok\n"),
        (file, b"0 4096 67174400 8192\nok file 5000\n"),
        (empty, b"ok file 0\n"),
        (Answer::Owners(owners), b"ok owners 5 256\n"),
        (Answer::Owners(OwnerList::new(alloc)), b"ok owners\n"),
    ];
    each_replies(&rt, alloc, &replies);
    Ok(())
}

#[test]
fn each_refusal_has_its_line(rt: HostRuntime) {
    let refusals: [(Refusal, &[u8]); 18] = [
        (Refusal::NoSub, b"no sub\n"),
        (Refusal::NoFile, b"no file\n"),
        (Refusal::Align, b"no align\n"),
        (Refusal::Far, b"no far\n"),
        (Refusal::Source, b"no source\n"),
        (Refusal::Overlap, b"no overlap\n"),
        (Refusal::NoRun, b"no run\n"),
        (Refusal::NoQuota, b"no off\n"),
        (Refusal::QuotaOn, b"no on\n"),
        (Refusal::NoGroup, b"no group\n"),
        (Refusal::GroupThere, b"no there\n"),
        (Refusal::Level, b"no level\n"),
        (Refusal::Related, b"no related\n"),
        (Refusal::NotRelated, b"no unrelated\n"),
        (Refusal::Busy, b"no busy\n"),
        (Refusal::TopLevel, b"no top\n"),
        (Refusal::TooMany, b"no many\n"),
        (Refusal::NoGeneration, b"no generation\n"),
    ];
    let mut text = Text::new(rt.alloc());
    for (refusal, bytes) in refusals {
        assert!(rt; write_reply(&Answer::Refused(refusal), &mut text) == Ok(()));
        assert!(rt; text.as_slice() == bytes);
        text.clear();
    }
}

#[test]
fn a_text_grows(rt: HostRuntime) {
    let mut text = Text::new(rt.alloc());
    let group = GroupId::from_number(281474976710663);
    let calls = [
        write_no_line(&mut text),
        write_broken(Rule::Csum, Address::new(131072), &mut text),
        write_differs(group, Which::Rfer, 0, 16384, &mut text),
    ];
    assert!(rt; calls == [Ok(()), Ok(()), Ok(())]);
    let want: &[u8] = b"no line\nbroken csum 131072\ndiffers 1/7 rfer 0 16384\n";
    assert!(rt; text.as_slice() == want);
}
