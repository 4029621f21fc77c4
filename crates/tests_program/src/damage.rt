// Contents whose pages aren't what was written. The marks and digests are those that a Python program gives.

ghost use Rattle.std.specs.Prelude.{false};
ghost use Rattle.disk_model.specs.Memory.{disk_faults, disk_size};
ghost use Rattle.disk_model.specs.Disks.{untold};

use crate::trial::{Trial, value_of};
use blob_base::{Bytes, Bytes64, IoFault, Key};
use blob_script::Status;
use disk_model::{Disk, MemDisk, Page};
use std::test::Fail;

// A disk that gives another first byte of one page than was written there.
#[derive(Drop)]
struct Flipped {
    disk: MemDisk,
    page: u32,
}

impl Disk for Flipped {
    ghost tells = { false };

    ghost size = { λ flipped. disk_size flipped.disk };

    ghost story = { λ _. untold };

    ghost calls = { λ _. record { reads = 0; writes = 0; syncs = 0 } };

    ghost faults = { λ flipped. disk_faults flipped.disk };

    ghost frugal = { λ _. false };

    fn pages(&self) -> u32 {
        self.disk.pages()
    }

    fn read(&mut self, page: u32, into: &mut Page) -> Result<(), IoFault> {
        self.disk.read(page, into)?;
        if page == self.page {
            into[0] ^= 1;
        }
        Ok(())
    }

    fn write(&mut self, page: u32, from: &Page) -> Result<(), IoFault> {
        self.disk.write(page, from)
    }

    fn sync(&mut self) -> Result<(), IoFault> {
        self.disk.sync()
    }
}

// A content of five pages and one byte stands on data pages 0 to 4, the last of which begins an extent of two, and 6.
#[test]
fn a_get_of_pages_that_changed(rt: HostRuntime) -> Result<(), Fail> {
    let script =
        b"0 begin\n0 put demo/a g:20481:0\n0 commit\nlead\n0 begin\n0 stat demo/a\n0 get demo/a\nlead\n";
    for (page, link, text, want, got) in [
        (
            1029,
            0,
            "0 ",
            "29fc1c02216325d1879226d3779f3a40cb98bb73f339f57014758b77df5b8ed9",
            "b18ae9048c6752f4e4947361320bd4f48c95e092f216411a8dcdf3546046c7f9",
        ),
        (
            1033,
            4,
            "4 ",
            "b4da5b41c1ae3a2cbde3fda3d936b88c2ee38ab9c4e3c711e92fa272db38fe25",
            "de1528ff5aa5269fb13966de86d0ef0856de5d45c98137fa511c115559e3631a",
        ),
        (
            1035,
            5,
            "5 ",
            "4771ecb61e348948a1623fc7f082b08360277f29c27b5f9d3d124e311844b222",
            "49305e26f4d131a75c207be9f3806875f85c2af77f697d3cbdb7a8fd2cfa81ee",
        ),
    ] {
        let mut output = Bytes::of(
            rt.alloc(),
            b"0 begun\n0 put\n0 queued\n0 committed 1\n0 begun\n0 stat 20481 4771ecb61e348948a1623fc7f082b08360277f29c27b5f9d3d124e311844b222\ndamaged demo/a ",
        )?;
        output.append(rt.alloc(), text.as_bytes())?;
        output.append(rt.alloc(), want.as_bytes())?;
        output.append(rt.alloc(), b" ")?;
        output.append(rt.alloc(), got.as_bytes())?;
        output.append(rt.alloc(), b"\n")?;
        let disk = MemDisk::new(rt.alloc(), 2053, Bytes64::new(rt.alloc()))?;
        let ended = Trial::of(script).run_on(rt.alloc(), Flipped { disk, page })?;
        let status = Status::Damaged {
            key: Key::read(b"demo/a").expect(&rt, "a key"),
            link,
            want: value_of(&rt, want),
            got: value_of(&rt, got),
        };
        ended.expect(&rt, output.as_slice(), &status);
        assert_eq!(rt; ended.status.code(), 9);
    }
    Ok(())
}
