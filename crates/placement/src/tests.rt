use super::*;
use fs_types::{Path, Rank, ServerNo};
use std::test::Fail;

#[test]
fn gfids_begin_the_digests_of_md5sum(rt: HostRuntime) -> Result<(), Fail> {
    let cases = [
        (b"/unifyfs/a".as_slice(), 0xcd2d_41dd_5e07_ef11_u64),
        (
            b"/unifyfs/checkpoints/rank_0.dat".as_slice(),
            0x5ebf_e672_5b02_ed8e,
        ),
    ];
    for (text, gfid) in cases {
        let path = Path::read(rt.alloc(), text)?;
        assert_eq!(rt; gfid_of(&path), gfid);
        assert_eq!(rt; gfid_of_bytes(text), gfid);
    }
    Ok(())
}

#[test]
fn the_owner_of_a_digest_is_its_first_eight_bytes_modulo_servers(rt: HostRuntime) {
    let abc = b"\x90\x01\x50\x98\x3c\xd2\x4f\xb0\xd6\x96\x3f\x7d\x28\xe1\x7f\x72";
    let gfid = gfid_of_digest(abc);
    assert_eq!(rt; gfid, 0x9001_5098_3cd2_4fb0);
    assert_eq!(rt; owner_of(gfid, 4), ServerNo(0));
    assert_eq!(rt; owner_of(gfid, 9), ServerNo(5));
}

#[test]
fn clients_go_round_the_servers(rt: HostRuntime) {
    assert_eq!(rt; node_of(Rank(5), 4), ServerNo(1));
    assert_eq!(rt; node_of(Rank(63), 64), ServerNo(63));
}

#[test]
fn five_servers_in_a_binary_tree_whose_root_is_server_3(rt: HostRuntime) {
    for (at, first, second) in [
        (3, Some(ServerNo(4)), Some(ServerNo(0))),
        (4, Some(ServerNo(1)), Some(ServerNo(2))),
        (0, None, None),
        (1, None, None),
        (2, None, None),
    ] {
        assert_eq!(rt;
            children(ServerNo(3), ServerNo(at), 2, 5, 1),
            first,
            "of {at}"
        );
        assert_eq!(rt;
            children(ServerNo(3), ServerNo(at), 2, 5, 2),
            second,
            "of {at}"
        );
    }
}

#[test]
fn the_greatest_numbers_of_servers_have_their_children(rt: HostRuntime) {
    let most = u32::MAX;
    let last = ServerNo(most - 1);
    assert_eq!(rt; children(last, last, most, most, 1), Some(ServerNo(0)));
    assert_eq!(rt; children(last, ServerNo(most - 2), most, most, most), None);
}
