//! `codebooks`: books written out by other programs, and what those read from them. The longest
//! rows of `ENTRIES` are printed by `tools/reference.py codebooks`.

use bit_reader::Bits;
use codebooks::{Book, BookFault, Budget};
use std::alloc::Global;

/// Three entries of lengths 1, 2 and 2.
const THREE: [u8; 11] = [66, 67, 86, 1, 0, 3, 0, 0, 128, 16, 0];

/// A sparse book of lengths -, 3, -, 1, 5, -, 5, 4, -, 3, 3.
const SPARSE: [u8; 15] = [66, 67, 86, 3, 0, 11, 0, 0, 42, 4, 137, 228, 80, 20, 0];

/// The codewords of some of its entries.
const SPARSE_PACKET: [u8; 6] = [196, 41, 67, 9, 165, 0];

/// An ordered book of lengths 2, 2, 3, 3, 3, 5, 5, 5, 5.
const ORDERED: [u8; 11] = [66, 67, 86, 2, 0, 9, 0, 0, 131, 12, 4];

/// The codewords of some of its entries.
const ORDERED_PACKET: [u8; 5] = [159, 179, 60, 123, 63];

/// Lengths 1 to 32, and 32 once more.
const LONG: [u8; 30] = [
    66, 67, 86, 1, 0, 33, 0, 0, 128, 32, 6, 41, 230, 160, 164, 22, 107, 238, 193, 40, 39, 173, 246,
    226, 172, 55, 239, 254, 127, 0,
];

/// The codewords of some of its entries, and 30 ones.
const LONG_PACKET: [u8; 20] = [
    255, 255, 255, 255, 255, 255, 255, 127, 254, 255, 255, 253, 253, 255, 255, 255, 255, 255, 255,
    255,
];

/// A book of type 1 with multiplicands 0 and 7, minimum -3/4 and delta 1/4.
const LATTICE: [u8; 24] = [
    66, 67, 86, 3, 0, 8, 0, 0, 8, 33, 132, 16, 66, 196, 0, 0, 144, 120, 0, 0, 144, 152, 192, 1,
];

/// A book of type 1 with multiplicands 1, 0 and 15 in sequence, the same minimum and delta.
const LATTICE_SEQUENCE: [u8; 25] = [
    66, 67, 86, 2, 0, 9, 0, 0, 8, 33, 132, 16, 99, 136, 24, 0, 0, 18, 15, 0, 0, 18, 155, 1, 15,
];

/// A book of type 2 in sequence, with fractions that are rounded down.
const TESSELLATION: [u8; 38] = [
    66, 67, 86, 3, 0, 3, 0, 0, 128, 16, 164, 0, 0, 76, 60, 0, 0, 10, 236, 3, 0, 252, 255, 7, 0, 0,
    113, 10, 0, 12, 0, 28, 0, 32, 0, 36, 0, 0,
];

/// A book of type 2 in sequence, whose values come to the limit.
const LIMITED: [u8; 21] = [
    66, 67, 86, 4, 0, 2, 0, 0, 0, 32, 1, 0, 96, 228, 3, 0, 32, 100, 241, 7, 8,
];

/// A book of one entry with the largest packed numbers.
const HUGE: [u8; 19] = [
    66, 67, 86, 2, 0, 1, 0, 0, 0, 249, 255, 255, 255, 255, 255, 255, 255, 3, 2,
];

/// The setup packet of a file that `oggenc -q -1` made of one second of a sine at 8000 Hz, mono,
/// eight bytes to a number.
const SETUP: [u64; 273] = [
    0xf736962726f7605,
    0x1000001564342,
    0x4a5319252114520c,
    0x1d05295252950863,
    0x39d4631d475b5063,
    0x1949885310642146,
    0xc84a58952a4f7ba5,
    0x4c531d4529585211,
    0x1d45299652954953,
    0x31d6532148531463,
    0x949864b1473a165,
    0xe84b1674ae4d6c25,
    0xce631d4631966399,
    0x1d4531d6639d4a5a,
    0x3a1873a149525263,
    0xe8c5463a14642566,
    0x2842a2953a307c62,
    0x8a852de952dec7be,
    0x2deb531ad7bd8a5b,
    0x736108c1694b1884,
    0x18c56a4adcd5b5ed,
    0x2853e2c5c6318c63,
    0x100005590d082,
    0x156434201044000,
    0x450c50c200000a00,
    0x640005590d08051,
    0xc714714514008000,
    0x4202cb2492471c71,
    0x200004000015643,
    0x239228e18e280000,
    0x9659659659649249,
    0xfb2faab9a89679a6,
    0xebaeaedaeeb2eae,
    0x800004ac8684,
    0x10832a4c75a14618,
    0x33d063148443ca43,
    0x631cc64c0c4310a3,
    0xc53388320ca4344e,
    0x10a82e2c5b883290,
    0x2880022b21a104,
    0x390c6218c418c000,
    0x9498e7225264a4e7,
    0xca51d4a39d034a4e,
    0x12a5198c4b149528,
    0x28ea51ce8231895b,
    0x528cc5a58c429465,
    0x8040000054c4b189,
    0xc868508580400003,
    0x63080000a20008a,
    0x14e6298c42948529,
    0x310c831ce5318873,
    0x9318e829ce6420c6,
    0x8949ce939ce54a4e,
    0x4e73950731ce6318,
    0xa4c949d072a4e74a,
    0x100000e010000013,
    0x880022b21a142160,
    0x9a59a69248300013,
    0x8a67a289a6968a26,
    0x679e5aaaa289eaaa,
    0xaa9a67aaaa699e9a,
    0xcaeaaa9aebaaaa6a,
    0xeaaa9a67a699e796,
    0xa6baeaa68aaaa699,
    0xba6cb6aaa7aebaaa,
    0xecaedb6aae9b2eaa,
    0xaaa9eebebb6bb6fa,
    0xcaeaa6eb2baa9b6c,
    0xedb6baeeb6caeaba,
    0xaebaaaa2aaa79e4b,
    0xab6eaebaabaeaa67,
    0xa9aeca6a9adb6bae,
    0xb2bb2daeba6db2ba,
    0xaa66baeb2caeeb6c,
    0x2cae9b2daaba6cae,
    0xbacb2ab6daecaeeb,
    0xfbacb2ab6eaeba2f,
    0xeebaeb6cbefb2caa,
    0xaaeb6bae8bf0bada,
    0xdb31becb2abeeb2c,
    0x27931c2ebacbf0b6,
    0xaa99ebaeaaa7aaaa,
    0xdaebaadb6baeaaeb,
    0x2daeba6cae9aa6ba,
    0xb6eb2caadb2baa9b,
    0x9b2caa99aeb6cb2b,
    0x2ab2caeba6db2bae,
    0xae8b6eb2caefbecb,
    0xcb2abaeb2ca6ebeb,
    0xadb6cc31baeaeec2,
    0xbacb2abaeaeba2fb,
    0xfbeebabbaeb2caaf,
    0x6ebaaaa6bb0b6eb2,
    0xb6fbacb29bafb2ca,
    0xba31badbaccb0bae,
    0x2caafc2db2abefae,
    0x3eeb32c2fbaebf0b,
    0x18596d575f5d7463,
    0x6395f7dd7df6d956,
    0x5df95b6d596175d6,
    0x6ebb0c6ebebc675b,
    0xb6dab2cb0badcafc,
    0x1bafaf2cadbaccb1,
    0x9a95f85b7cec2ec3,
    0xca6ebabae9b6daaa,
    0xdd75b42ebacbafb2,
    0x7db6d57df5d74657,
    0x695f85b7df65955f,
    0xaafbabae8cb0c31b,
    0xeb2fcacb6bc2eb2c,
    0x6dab2c2fc2ecb0ba,
    0xbadb30caebabbf2b,
    0xbeebf2cb0bedcb0,
    0xd2baeaefbedbaacb,
    0x2bb19f7db96575b5,
    0x701800000bf1b7,
    0xb21a140ca1300800,
    0x7210400013880022,
    0x8420a62a106290e,
    0x5263152a4210a4a1,
    0xa52949ce64a4e632,
    0x4a4c62ad494a1494,
    0x94a12931cc949ce6,
    0x2a5a5284a9294a96,
    0xd6a52d694a14c4a5,
    0xa56b4a50c5a94a62,
    0x6294a5ad494ad6a4,
    0x7325263118c5ad4c,
    0x6b5292949ce64a4e,
    0xe6528e732d69525,
    0xad2a4a94a420ea4a,
    0x3a0ea49ce662d4a4,
    0x95312a4ad4841d2b,
    0x6a4a56c4a90b6294,
    0xd4d5312b6314a4ad,
    0xb14a4b18a5218e5a,
    0x5ad6d5316d5a9495,
    0x949ce64a4c6235ab,
    0x2a4ad6a5252a39cc,
    0xd4b420ea49ce65ad,
    0x292a62d4a4a92839,
    0x3294841d4939cac5,
    0xc4a92b5a9494a8c8,
    0x296314b4ad895212,
    0x16c529ae62d4c5a9,
    0xa92c5a94962d4943,
    0x5354b5b58c62d6c4,
    0x95258c5292c5a527,
    0xc6ad6b6b9ac5b18,
    0x94a4b18b4a56c4a5,
    0xa18e6316d7316b5b,
    0x5a9495b12b4b16a4,
    0xb535cb5ad8e5b56c,
    0x8d6316d6ad4a6354,
    0xd6a73dad6b94e531,
    0xb9ac5adad5314d62,
    0x4a4ee7b5cc5b96d5,
    0xb6314a4b1694a56b,
    0x694a1ce6318d62d6,
    0xd6c629295b14a4ad,
    0xb129435cc5adad5a,
    0x62d8c4a92c5ad295,
    0xc6ad6a6356c5b5ac,
    0xad6b5ab5a5ad5b16,
    0xdcd5ad2e5b56c6bd,
    0xb5ac6b94b53dac62,
    0xc0000056d5358e6,
    0xa06509804000038,
    0x1440009590d,
    0xc729468418c630c6,
    0x52739ce528d2939c,
    0x1ce652908420e72a,
    0x4a50839cca521084,
    0x9429494a1073994b,
    0x6a525285ad6a5292,
    0x1c0a000002b5ad,
    0xa01c5894d06c0200,
    0x80002a40009590d0,
    0x75d555144d3471c1,
    0xd75554512cb15f7d,
    0x55144d2c57e36d95,
    0x545135f85b6d7655,
    0x4d7e16db6db5d755,
    0x85b6d96576555514,
    0x6eb2db6db2baaaa2,
    0xb2db6baeaaa8c30b,
    0xadbadbabaea8eb6d,
    0x6d96595d542fbadb,
    0xdd75b6d71d75b75b,
    0xeb6db319f85d75f6,
    0x470c23f0beeb6eb6,
    0x4274fbe3e421f8df,
    0x2a0000704f000008,
    0xc0b1a293847561b0,
    0x190002564342,
    0x48331885194a3180,
    0x98c6314c6318a631,
    0x80000701800000,
    0x80022b21a140ca13,
    0x739ce739c0000028,
    0xe739ce739ce739ce,
    0x8e739ce739ce739c,
    0x18c6318c6318c631,
    0x318c6318c6318c63,
    0x6318c6318c6318c6,
    0xc0004c6318c6318c,
    0x5085844ec003844e,
    0x1c20004ac868,
    0x5294a52929210840,
    0xa5294941ce53114a,
    0x4a4a8c8314aa5294,
    0x947514a45294a529,
    0xa0a52294a5294a52,
    0x4994a5294a5292a4,
    0xa5294a5294a52949,
    0x4a5294a5294a3a8c,
    0x94a5294a5294a529,
    0x294a5294a5294a52,
    0x5294a5294a5294a5,
    0xa5294a5294a5294a,
    0x4a5294a5294a5294,
    0x94a5294a5294a529,
    0x294a5294a5294a52,
    0x4a54a5294a5294a5,
    0x94a5294a5294a529,
    0xf2600014a5294a52,
    0x2b0ce360950000e0,
    0xac8685c1a3856749,
    0x1885000003720004,
    0x5254a4ad69421083,
    0x94252841ce55254a,
    0xaa529495294a4a94,
    0x92a5a92a4a108398,
    0xa12841d2b5294a52,
    0x4a529425294a5094,
    0x94a1094a10842528,
    0x74a5284a92b4254,
    0x5484a129421284a1,
    0x212841ce9425294a,
    0x42d494a549420e85,
    0x9521295254741d48,
    0x83a94a525294a52,
    0x52952d4b529294a1,
    0xa929521274a94a5a,
    0x5292b5a96a52d495,
    0xa525494a56a4a109,
    0x494a12b525495ad2,
    0x5485294b5294a525,
    0x252a529284254952,
    0x52d6b5a94a5a96b5,
    0xa5a94a529495a948,
    0x4a4a90a5254a52d4,
    0x9495256a529294a9,
    0x29494a9495216a52,
    0x4254a4a5294ad4a4,
    0xb52d4a5a52a5a949,
    0x495254b4a9494a94,
    0x52a529494a9494a5,
    0xa94a4a12a5294b4a,
    0x52928529495a94a5,
    0xb5254b529295294a,
    0x495294a5250a4a54,
    0x9295294b5294b4a9,
    0xe0740000152,
    0x5c669d885a544601,
    0x2809864288e0479,
    0x2009804000400000,
    0x3080410a30504030,
    0xc0000000000102,
    0x1110014700001f00,
    0x2c2824201c19cd1,
    0x3c38343,
    0x8000000000000000,
];

const BUDGET: Budget = Budget {
    entries: 100,
    multiplicands: 100,
};

fn read(alloc: Global, bytes: &[u8]) -> Result<Book, BookFault> {
    let mut budget = BUDGET;
    Book::read(alloc, &mut Bits::new(bytes), &mut budget)
}

/// What a row shows, a codebook, and why it is refused, if it is.
const READ: [(&str, &[u8], Option<BookFault>); 13] = [
    (
        "lengths 1 and 2",
        &[66, 67, 86, 1, 0, 2, 0, 0, 128, 0],
        Some(BookFault::Tree),
    ),
    (
        "one length of 2",
        &[66, 67, 86, 1, 0, 1, 0, 0, 4, 0],
        Some(BookFault::Tree),
    ),
    (
        "three lengths of 1",
        &[66, 67, 86, 1, 0, 3, 0, 0, 0, 0, 0],
        Some(BookFault::Tree),
    ),
    (
        "a run past the entries",
        &[66, 67, 86, 1, 0, 2, 0, 0, 193],
        Some(BookFault::Tree),
    ),
    (
        "a run at length 33",
        &[66, 67, 86, 1, 0, 2, 0, 0, 63, 0],
        Some(BookFault::Tree),
    ),
    ("no used entry", &[66, 67, 86, 1, 0, 2, 0, 0, 2], None),
    (
        "another sync pattern",
        &[66, 67, 87, 1, 0, 2, 0, 0, 2],
        Some(BookFault::Sync),
    ),
    (
        "101 entries",
        &[66, 67, 86, 1, 0, 101, 0, 0],
        Some(BookFault::Limit),
    ),
    (
        "102 multiplicands",
        &[66, 67, 86, 51, 0, 2, 0, 0, 0, 32, 0, 0, 0, 0, 0, 0, 0, 0, 0],
        Some(BookFault::Limit),
    ),
    (
        "a lookup of type 3",
        &[66, 67, 86, 1, 0, 2, 0, 0, 0, 48],
        Some(BookFault::Lookup),
    ),
    (
        "a lookup without dimensions",
        &[66, 67, 86, 0, 0, 2, 0, 0, 0, 16],
        Some(BookFault::Lookup),
    ),
    ("a lookup of type 1", &LATTICE, None),
    ("no byte", &[], Some(BookFault::End)),
];

#[test]
fn refuses_by_the_first_cause(rt: HostRuntime) {
    for (name, bytes, wanted) in &READ {
        assert!(rt; read(rt.alloc(), bytes).err() == *wanted, "{name}");
    }
    for count in 0..LATTICE.len() {
        let cut = read(rt.alloc(), &LATTICE[..count]).err();
        assert!(rt; cut == Some(BookFault::End), "{count} bytes");
    }
}

const TEXTS: [(BookFault, &str); 6] = [
    (BookFault::End, "the packet ends within a codebook"),
    (
        BookFault::Sync,
        "a codebook does not begin with its sync pattern",
    ),
    (
        BookFault::Tree,
        "the lengths of a codebook's codewords make no whole tree",
    ),
    (
        BookFault::Lookup,
        "a codebook has an unknown lookup, or a lookup without dimensions",
    ),
    (
        BookFault::Limit,
        "the codebooks have more entries or multiplicands than a setup may hold",
    ),
    (BookFault::Memory, "out of memory"),
];

#[test]
fn says_what_is_wrong(rt: HostRuntime) -> Result<(), BookFault> {
    for (fault, text) in &TEXTS {
        assert_eq!(&rt; fault.to_string(rt.alloc())?.as_str(), *text);
    }
    Ok(())
}

/// What a row shows, a codebook, a packet of codewords, and the entries that they name.
const ENTRIES: [(&str, &[u8], &[u8], &[u32]); 8] = [
    ("lengths 1, 2 and 2", &THREE, &[6], &[0, 2, 0, 0, 0, 0, 0]),
    (
        "lengths of 1 to 5, sparse",
        &SPARSE,
        &SPARSE_PACKET,
        &[4, 10, 3, 6, 7, 1, 9, 3, 4, 6, 6, 1],
    ),
    (
        "lengths of 2 to 5 in order",
        &ORDERED,
        &ORDERED_PACKET,
        &[8, 0, 5, 4, 2, 7, 1, 3, 6, 8],
    ),
    (
        "lengths 1 to 32, and 32 once more",
        &LONG,
        &LONG_PACKET,
        &[32, 31, 0, 24, 7, 32],
    ),
    (
        "one used entry, by bits of either value",
        &[66, 67, 86, 1, 0, 3, 0, 0, 10, 0],
        &[165],
        &[1, 1, 1, 1, 1, 1, 1, 1],
    ),
    (
        "mixed lengths of 1 to 24",
        &[
            66, 67, 86, 1, 0, 44, 0, 0, 40, 99, 174, 186, 42, 58, 234, 100, 28, 82, 185, 3, 93,
            177, 214, 29, 136, 128, 104, 38, 25, 68, 236, 24, 139, 12, 57, 21, 0,
        ],
        &[
            14, 129, 193, 0, 8, 128, 4, 16, 32, 12, 128, 0, 2, 16, 8, 80, 128, 193, 192, 0, 0, 64,
            6, 32, 0, 4, 32, 4, 32, 16, 1, 8, 0, 0, 200,
        ],
        &[
            40, 20, 24, 30, 21, 28, 4, 17, 30, 9, 7, 43, 31, 24, 24, 0, 16, 5, 18, 4, 2, 28, 3, 16,
        ],
    ),
    (
        "mixed lengths of 1 to 24, sparse",
        &[
            66, 67, 86, 1, 0, 59, 0, 0, 86, 77, 243, 86, 222, 106, 236, 164, 157, 114, 116, 40,
            169, 186, 71, 168, 91, 218, 182, 243, 132, 81, 160, 216, 104, 166, 38, 74, 180, 199,
            225, 74, 142, 242, 172, 0,
        ],
        &[
            0, 36, 128, 21, 6, 48, 8, 14, 64, 0, 0, 3, 32, 0, 84, 0, 26, 128, 96, 70, 0, 50, 64, 1,
            8, 0, 37, 0, 0, 8, 0, 0, 8, 128, 0, 4, 7, 3,
        ],
        &[
            12, 44, 50, 43, 44, 2, 45, 3, 43, 6, 50, 40, 19, 51, 39, 23, 58, 6, 54, 0, 3, 30, 56,
            34,
        ],
    ),
    (
        "lengths of 1 to 24 in order",
        &[
            66, 67, 86, 1, 0, 44, 0, 0, 65, 0, 4, 132, 16, 16, 66, 132, 18, 64, 40, 32, 50, 9, 38,
            0,
        ],
        &[
            255, 159, 255, 245, 255, 255, 231, 223, 255, 255, 239, 255, 251, 239, 255, 255, 230,
            255, 243, 255, 248, 255, 255, 251, 223, 255, 255, 231, 255, 249, 255, 215, 235, 239,
            159, 255, 191, 255, 255, 0,
        ],
        &[
            27, 22, 3, 39, 19, 38, 28, 19, 35, 1, 27, 24, 0, 42, 22, 39, 24, 33, 0, 9, 16, 15, 31,
            32,
        ],
    ),
];

#[test]
fn reads_entries(rt: HostRuntime) -> Result<(), BookFault> {
    for (name, book, packet, entries) in &ENTRIES {
        let book = read(rt.alloc(), book)?;
        let mut bits = Bits::new(packet);
        for entry in *entries {
            assert_eq!(rt; book.entry(&mut bits), Some(*entry), "{name}");
        }
    }
    Ok(())
}

/// What a row shows, a codebook, a packet, and how many entries are read before its end.
const ENDS: [(&str, &[u8], &[u8], u32); 4] = [
    ("a codeword that is cut off", &THREE, &[6, 128], 14),
    ("24 ones of a codeword of 32", &LONG, &[255, 255, 255], 0),
    ("no used entry", &[66, 67, 86, 1, 0, 2, 0, 0, 2], &[6], 0),
    (
        "one used entry, behind the last bit",
        &[66, 67, 86, 1, 0, 3, 0, 0, 10, 0],
        &[165],
        8,
    ),
];

#[test]
fn meets_the_end(rt: HostRuntime) -> Result<(), BookFault> {
    for (name, book, packet, count) in &ENDS {
        let book = read(rt.alloc(), book)?;
        let mut bits = Bits::new(packet);
        for _ in 0..*count {
            assert!(rt; book.entry(&mut bits).is_some(), "{name}");
        }
        assert_eq!(rt; book.entry(&mut bits), None, "{name}");
        assert_eq!(rt; bits.take(1), None, "{name}");
    }
    Ok(())
}

/// What a row shows, a codebook, a packet of codewords, and the vectors of their entries.
const VECTORS: [(&str, &[u8], &[u8], &[i64]); 5] = [
    (
        "type 1",
        &LATTICE,
        &[197, 1],
        &[
            65536, -49152, 65536, -49152, -49152, -49152, 65536, 65536, 65536,
        ],
    ),
    (
        "type 1 in sequence",
        &LATTICE_SEQUENCE,
        &[55, 1],
        &[196608, 393216, -32768, -81920, -49152, -81920],
    ),
    (
        "type 2 in sequence, rounded down",
        &TESSELLATION,
        &[26],
        &[
            -163840, 4294639616, 4294737920, 4294803456, 4294967296, 4294967296, 1671169, 3604483,
            5799941,
        ],
    ),
    (
        "values at the limit",
        &LIMITED,
        &[2],
        &[
            2147483648,
            4294967296,
            4294967296,
            2147483648,
            -2147483648,
            -4294967296,
            -4294967296,
            -4294967296,
            2147483648,
            4294967296,
            4294967296,
            2147483648,
        ],
    ),
    ("the largest packed numbers", &HUGE, &[0], &[-4294967296, 0]),
];

#[test]
fn makes_vectors(rt: HostRuntime) -> Result<(), BookFault> {
    for (name, book, packet, values) in &VECTORS {
        let book = read(rt.alloc(), book)?;
        assert!(rt; book.has_lookup(), "{name}");
        let dimensions = book.dimensions() as usize;
        assert!(rt; dimensions > 0 && dimensions < 5, "{name}");
        let count = dimensions - 1;
        let mut bits = Bits::new(packet);
        let mut again = Bits::new(packet);
        for wanted in values.chunks(dimensions) {
            assert!(rt; wanted.len() == dimensions, "{name}");
            let mut out = [0; 4];
            let read = book.vector(&mut bits, &mut out[..dimensions]);
            assert!(rt; read.is_some(), "{name}");
            assert_eq!(rt; &out[..dimensions], wanted, "{name}");
            // all but the last value
            let mut front = [0; 4];
            let read = book.first_values(&mut again, &mut front[..count]);
            assert!(rt; read.is_some(), "{name}");
            assert_eq!(rt; &front[..count], &wanted[..count], "{name}");
        }
    }
    Ok(())
}

/// A book of 4096 entries of three dimensions in sequence: too many values to be laid out.
const LARGE: [u8; 28] = [
    66, 67, 86, 3, 0, 0, 16, 0, 23, 0, 140, 1, 0, 32, 241, 0, 0, 32, 177, 9, 249, 114, 67, 182, 81,
    168, 220, 14,
];

const LARGE_VECTORS: [[i64; 3]; 4] = [
    [147456, 311296, 409600],
    [114688, 311296, 278528],
    [32768, 16384, 16384],
    [196608, 376832, 557056],
];

#[test]
fn makes_vectors_of_a_large_book(rt: HostRuntime) -> Result<(), BookFault> {
    let mut budget = Budget {
        entries: 4096,
        multiplicands: 16,
    };
    let book = Book::read(rt.alloc(), &mut Bits::new(&LARGE), &mut budget)?;
    assert!(rt; book.has_lookup() && book.dimensions() == 3);
    let mut bits = Bits::new(&[120, 155, 52, 202, 245, 79]);
    for wanted in &LARGE_VECTORS {
        let mut out = [0; 3];
        assert!(rt; book.vector(&mut bits, &mut out).is_some());
        assert_eq!(rt; out, *wanted);
    }
    Ok(())
}

#[test]
fn writes_nothing_at_the_end(rt: HostRuntime) -> Result<(), BookFault> {
    let book = read(rt.alloc(), &LATTICE)?;
    assert!(rt; book.has_lookup());
    assert_eq!(rt; book.dimensions(), 3);
    let mut out = [1, 2, 3];
    assert!(rt; book.vector(&mut Bits::new(&[]), &mut out).is_none());
    assert_eq!(rt; out, [1, 2, 3]);
    Ok(())
}

#[test]
fn reads_every_book_of_a_file(rt: HostRuntime) -> Result<(), BookFault> {
    let mut packet = Vec::new(rt.alloc());
    for word in &SETUP {
        packet.extend_from_slice(&word.to_le_bytes())?;
    }
    assert!(rt; packet.len() == 2184);
    let mut bits = Bits::new(&packet);
    // the type byte and `vorbis`, and the number of books less one
    for byte in [5, 118, 111, 114, 98, 105, 115, 15] {
        assert_eq!(rt; bits.take(8), Some(byte));
    }
    let mut budget = Budget {
        entries: 2857 + 7,
        multiplicands: 82 + 9,
    };
    for _ in 0..16 {
        let _book = Book::read(rt.alloc(), &mut bits, &mut budget)?;
    }
    assert_eq!(rt; budget.entries, 7);
    assert_eq!(rt; budget.multiplicands, 9);
    // 454 of the 17472 bits stand behind the books
    for _ in 0..454u32 {
        assert!(rt; bits.take(1).is_some());
    }
    assert_eq!(rt; bits.take(1), None);
    Ok(())
}
