ghost use Rattle.std.specs.Prelude.{◌^◌, ◌<◌, length};

use sha_resume::{Chain, digest};
use sha2::{Digest, Sha256};
use std::process::Abort;

// 300 bytes that differ from one another within a block.
fn pattern() -> [u8; 300] {
    let mut message = [0u8; 300];
    for i in 0..300 {
        message[i] = (i % 251) as u8;
    }
    message
}

fn expect_digest<R: Abort>(rt: &R, message: &[u8], expected: &str)
    requires { length message.now < 2 ^ 60 }
{
    let mut bytes = [0u8; 32];
    let read = hex::decode_to_slice(expected, &mut bytes);
    assert!(rt; read.is_ok());
    let found = digest(message);
    assert!(rt; found.bytes == bytes, "at {} bytes", message.len());
}

// The examples that the standard's authors give.
#[test]
fn published_vectors(rt: HostRuntime) {
    expect_digest(
        &rt,
        b"",
        "e3b0c44298fc1c149afbf4c8996fb92427ae41e4649b934ca495991b7852b855",
    );
    expect_digest(
        &rt,
        b"abc",
        "ba7816bf8f01cfea414140de5dae2223b00361a396177a9cb410ff61f20015ad",
    );
    expect_digest(
        &rt,
        b"abcdbcdecdefdefgefghfghighijhijkijkljklmklmnlmnomnopnopq",
        "248d6a61d20638b8e5c026930c3e6039a33ce45964ff2167f6ecedd419db06c1",
    );
}

// Where the padding takes another block or not, and where the message ends with a block. The digests
// are those of Python's hashlib.
#[test]
fn lengths_round_a_block_end(rt: HostRuntime) {
    let message = pattern();
    for (len, expected) in [
        (
            54,
            "675f28acc0b90a72d1c3a570fe83ac565555db358cf01826dc8eefb2bf7ca0f3",
        ),
        (
            55,
            "463eb28e72f82e0a96c0a4cc53690c571281131f672aa229e0d45ae59b598b59",
        ),
        (
            56,
            "da2ae4d6b36748f2a318f23e7ab1dfdf45acdc9d049bd80e59de82a60895f562",
        ),
        (
            57,
            "2fe741af801cc238602ac0ec6a7b0c3a8a87c7fc7d7f02a3fe03d1c12eac4d8f",
        ),
        (
            63,
            "29af2686fd53374a36b0846694cc342177e428d1647515f078784d69cdb9e488",
        ),
        (
            64,
            "fdeab9acf3710362bd2658cdc9a29e8f9c757fcf9811603a8c447cd1d9151108",
        ),
        (
            65,
            "4bfd2c8b6f1eec7a2afeb48b934ee4b2694182027e6d0fc075074f2fabb31781",
        ),
        (
            119,
            "da18797ed7c3a777f0847f429724a2d8cd5138e6ed2895c3fa1a6d39d18f7ec6",
        ),
        (
            120,
            "f52b23db1fbb6ded89ef42a23ce0c8922c45f25c50b568a93bf1c075420bbb7c",
        ),
        (
            121,
            "335a461692b30bba1d647cc71604e88e676c90e4c22455d0b8c83f4bd7c8ac9b",
        ),
        (
            300,
            "43f9b5d59eb108817176c6f65c2c6203a22f2ae8bc28b7a1dde45947678c5042",
        ),
    ] {
        assert!(rt; len <= 300);
        expect_digest(&rt, &message[..len], expected);
    }
}

// Another implementation gives the same digests.
#[test]
fn every_length_to_300(rt: HostRuntime) {
    let message = pattern();
    for len in 0..301 {
        let expected: [u8; 32] = Sha256::digest(&message[..len]);
        let found = digest(&message[..len]);
        assert!(rt; found.bytes == expected, "at {len} bytes");
    }
}

// A chain left at any block's end, and taken up from its mark and count, gives the same digest.
#[test]
fn cut_at_every_block_end(rt: HostRuntime) {
    let message = pattern();
    let whole = digest(&message);
    for blocks in 0..5 {
        let (first, rest) = message.split_at(64 * blocks);
        let mut chain = Chain::new();
        chain.blocks(first);
        assert!(rt; chain.count() == blocks as u64);
        let later = Chain::at(chain.mark(), chain.count());
        assert!(rt; later.finish(rest) == whole, "cut after {blocks} blocks");
    }
}
