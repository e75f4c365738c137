use super::*;
use fs_types::LineNo;
use std::test::Fail;

// The first half of the MD5 digest of /unifyfs/a is cd2d41dd5e07ef11, which is 1 modulo 4.
#[test]
fn a_path_stands_in_the_book_of_its_owner(rt: HostRuntime) -> Result<(), Fail> {
    let alloc = rt.alloc();
    let path = Path::read(alloc, b"/unifyfs/a")?;
    for server in 0..4 {
        let mut books = new_books(alloc, 4)?;
        let book = books.get_mut(server).ok_or("four servers")?;
        book.create(alloc, 0xcd2d_41dd_5e07_ef11, &path, LineNo(2))?;
        let wanted = if server == 1 { Some(LineNo(2)) } else { None };
        let first = journal(&books, 4, &path).first().copied();
        assert_eq!(rt; first, wanted, "server {server}");
    }
    Ok(())
}
