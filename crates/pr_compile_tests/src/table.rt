//! Operators at many widths and kinds, and what the definitions of the language make of some operands.

/// Numbers whose lowest bits are operands.
pub(crate) const NUMBERS: [u128; 5] = [
    0x892f902bd23f0824128b2f330c5c7fd0,
    0x6f03675a1600a35a099950d836f675cc,
    0x8d116ece1738f7d93d9c172411e20b8f,
    0x658cda1495e60af593bd04cf0fd630f1,
    0x881ed162ae2eb1547f15052434b9b5df,
];

/// One choice of kinds and widths for two operands.
pub(crate) struct Row {
    /// Whether the operands are signed.
    pub(crate) signed: [bool; 2],
    /// The operands' widths in bits.
    pub(crate) widths: [u8; 2],
    /// The amount of the constant shifts.
    pub(crate) by: u8,
    /// The highest and the lowest bit of the slice.
    pub(crate) bits: [u8; 2],
    /// For each of three samples what the two operands are, the condition, and the amount of the shifts by a stream. An
    /// operand is 0 for all bits 1, 1 for the highest bit alone, 2 for all bits but it, and else a number from the
    /// third on.
    pub(crate) samples: [[u8; 4]; 3],
    /// The outputs of the last sample, in hexadecimal digits.
    pub(crate) values: &'static str,
}

pub(crate) static ROWS: [Row; 40] = [
    Row {
        signed: [false, false],
        widths: [1, 1],
        by: 0,
        bits: [0, 0],
        samples: [[5, 2, 0, 1], [6, 1, 0, 0], [5, 7, 1, 1]],
        values: "2 0 1 1 1 0 0 1 1 1 0 0 3 2 0 1 1 1 0 0 1 1 1 0 0 3 1 0 0 1 0 1 1 1 1 1 9 ",
    },
    Row {
        signed: [true, true],
        widths: [1, 1],
        by: 2,
        bits: [0, 0],
        samples: [[5, 5, 1, 0], [7, 6, 0, 0], [3, 0, 0, 0]],
        values: "3 1 0 0 1 1 1 1 0 0 0 0 1 1ffffffff 1 0 0 1ffffffff 1ffffffff 1ffffffff 1ffffffff 0 0 0 0 1 0 1 0 \
            0 1 1 0 0 0 1 1fffffffe ",
    },
    Row {
        signed: [true, false],
        widths: [1, 1],
        by: 2,
        bits: [0, 0],
        samples: [[4, 4, 1, 0], [1, 0, 1, 2], [3, 3, 0, 0]],
        values: "0 0 0 0 0 0 1 0 0 0 0 0 0 0 0 0 0 0 0 1ffffffff 0 0 0 0 0 0 1 0 0 1 0 1 0 0 0 1 1fffffffe ",
    },
    Row {
        signed: [false, true],
        widths: [1, 9],
        by: 2,
        bits: [0, 0],
        samples: [[2, 5, 1, 0], [4, 6, 0, 0], [6, 1, 0, 2]],
        values: "301 101 700 0 101 101 0 100 4 0 0 0 300 1ffffff01 101 1ffffff00 0 1ffffff01 1ffffff01 0 1ffffff00 \
            4 0 0 0 300 0 1 0 0 1 1 1 1 1 0 4 ",
    },
    Row {
        signed: [false, false],
        widths: [7, 7],
        by: 3,
        bits: [5, 3],
        samples: [[1, 0, 0, 6], [2, 2, 0, 1], [4, 0, 1, 6]],
        values: "cb 4d 25b4 4c 7f 33 33 4c 260 9 0 1 267f cb 4d 25b4 4c 7f 33 33 4c 260 9 0 1 267f 0 1 1 1 0 0 1 1 \
            4c 3f f2 ",
    },
    Row {
        signed: [true, true],
        widths: [7, 7],
        by: 2,
        bits: [3, 3],
        samples: [[1, 7, 1, 0], [1, 1, 0, 5], [4, 1, 1, 0]],
        values: "8c c d00 40 4c c 33 4c 130 13 4c 4c 2640 1ffffff8c c d00 1ffffffc0 1ffffffcc c 33 1ffffffcc \
            1ffffff30 1fffffff3 1ffffffcc 1ffffffcc 2640 0 1 0 0 1 1 1 1 1ffffffcc 40 9 ",
    },
    Row {
        signed: [true, false],
        widths: [7, 7],
        by: 3,
        bits: [6, 6],
        samples: [[3, 0, 0, 0], [2, 4, 0, 6], [4, 1, 1, 1]],
        values: "c 18c 7300 40 cc 8c 33 cc 260 9 18 66 2640 c 1ffffff8c 1fffff300 40 1ffffffcc 1ffffff8c 33 \
            1ffffffcc 1fffffe60 1fffffff9 18 1ffffffe6 2640 0 1 1 1 0 0 1 1 1ffffffcc 3f 72 ",
    },
    Row {
        signed: [false, true],
        widths: [7, 31],
        by: 3,
        bits: [2, 1],
        samples: [[3, 1, 1, 2], [6, 2, 0, 7], [7, 0, 0, 3]],
        values: "5e 60 7fffffffa1 5f 7fffffff 7fffffa0 20 7fffffff 2f8 b 78 b 2fffffffff 5e 60 1ffffffa1 5f \
            1ffffffff 1ffffffa0 20 1ffffffff 2f8 b 78 b 1ffffffff 0 1 0 0 1 1 3 3 5f 71 2b ",
    },
    Row {
        signed: [false, false],
        widths: [8, 8],
        by: 1,
        bits: [7, 4],
        samples: [[4, 3, 1, 9], [4, 2, 0, 0], [4, 0, 1, 5]],
        values: "1cb cd cb34 cc ff 33 33 cc 198 66 80 6 ccff 1cb cd cb34 cc ff 33 33 cc 198 66 80 6 ccff 0 1 1 1 0 \
            0 c c cc cc 1d ",
    },
    Row {
        signed: [true, true],
        widths: [8, 8],
        by: 7,
        bits: [7, 4],
        samples: [[1, 1, 1, 3], [0, 1, 1, 0], [2, 4, 1, 9]],
        values: "4b b3 e634 4c ff b3 80 7f 3f80 0 0 0 7fcc 4b b3 1ffffe634 4c 1ffffffff 1ffffffb3 1ffffff80 7f 3f80 \
            0 0 0 7fcc 0 1 0 0 1 1 7 7 7f ff 1ffffff81 ",
    },
    Row {
        signed: [true, false],
        widths: [8, 8],
        by: 0,
        bits: [1, 1],
        samples: [[3, 3, 1, 9], [1, 5, 1, 7], [0, 2, 1, 8]],
        values: "7e 380 1ff81 7f 1ff 180 0 1ff ff ff 0 ff ff7f 7e 1ffffff80 1ffffff81 7f 1ffffffff 1ffffff80 0 \
            1ffffffff 1ffffffff 1ffffffff 0 1ffffffff ff7f 0 1 1 1 0 0 1 1 1ffffffff 80 1ffffffda ",
    },
    Row {
        signed: [false, true],
        widths: [8, 32],
        by: 4,
        bits: [7, 6],
        samples: [[0, 7, 0, 9], [7, 5, 0, 3], [4, 7, 1, 6]],
        values: "34b9b6ab 1cb464aed 2a03fcedb4 cc 34b9b5df 34b9b513 33 cc cc0 c 0 3 cc34b9b5df 34b9b6ab 1cb464aed \
            3fcedb4 cc 34b9b5df 34b9b513 33 cc cc0 c 0 3 34b9b5df 0 1 1 1 0 0 3 3 cc df 1d2 ",
    },
    Row {
        signed: [false, false],
        widths: [9, 9],
        by: 0,
        bits: [7, 3],
        samples: [[5, 2, 0, 5], [0, 1, 1, 3], [2, 4, 0, 2]],
        values: "2cb 133 1ca34 cc 1ff 133 100 1cc ff ff 1fc 3f 1ffcc 2cb 133 1ca34 cc 1ff 133 100 1cc ff ff 1fc 3f \
            1ffcc 0 1 1 1 0 0 1f 1f ff 1ff 101 ",
    },
    Row {
        signed: [true, true],
        widths: [9, 9],
        by: 8,
        bits: [7, 5],
        samples: [[2, 0, 0, 6], [7, 3, 1, 6], [4, 4, 0, 10]],
        values: "398 0 a90 1cc 1cc 0 33 1cc 1cc00 1 0 1ff 399cc 1ffffff98 0 a90 1ffffffcc 1ffffffcc 0 33 1ffffffcc \
            1ffffcc00 1ffffffff 0 1ffffffff 399cc 1 0 0 1 0 1 6 6 1ffffffcc 1df 1ffffffd2 ",
    },
    Row {
        signed: [true, false],
        widths: [9, 9],
        by: 5,
        bits: [8, 7],
        samples: [[2, 7, 0, 7], [2, 5, 1, 10], [2, 1, 1, 10]],
        values: "1ff 7ff ff00 0 1ff 1ff 100 ff 1fe0 7 0 0 1ff00 1ff 1ffffffff ff00 0 1ff 1ff 1ffffff00 ff 1fe0 7 0 \
            0 1ff00 0 1 1 1 0 0 1 1 ff ff 1 ",
    },
    Row {
        signed: [false, true],
        widths: [9, 33],
        by: 3,
        bits: [8, 0],
        samples: [[5, 6, 0, 8], [4, 7, 0, 2], [2, 4, 0, 9]],
        values: "36f676cb 3c9098b33 36bf7f5634 cc 36f675ff 36f67533 100 36f675cc 7f8 1f 0 0 1fe36f675cc 36f676cb \
            1c9098b33 bf7f5634 cc 36f675ff 36f67533 100 36f675cc 7f8 1f 0 0 36f675cc 0 1 1 1 0 0 ff ff ff 1cc 130 ",
    },
    Row {
        signed: [false, false],
        widths: [31, 31],
        by: 10,
        bits: [22, 21],
        samples: [[5, 4, 0, 20], [1, 2, 1, 16], [1, 2, 1, 4]],
        values: "7fffffff 1 fffffffc0000000 0 7fffffff 7fffffff 3fffffff 40000000 10000000000 100000 0 4000000 \
            200000003fffffff 7fffffff 1 1c0000000 0 7fffffff 7fffffff 3fffffff 40000000 0 100000 0 4000000 3fffffff \
            0 1 0 0 1 1 0 0 40000000 40000000 23c4171b ",
    },
    Row {
        signed: [true, true],
        widths: [31, 31],
        by: 32,
        bits: [16, 15],
        samples: [[0, 7, 1, 25], [1, 2, 1, 32], [6, 2, 1, 28]],
        values: "4fd630f0 cfd630f2 3f58c3c3029cf0f fd630f1 3fffffff 3029cf0e 7029cf0e fd630f1 fd630f100000000 0 \
            10000000 0 7eb1878bfffffff 4fd630f0 1cfd630f2 3029cf0f fd630f1 3fffffff 3029cf0e 1f029cf0e fd630f1 \
            100000000 0 10000000 0 bfffffff 0 1 1 1 0 0 0 0 fd630f1 40000000 3029cf0a ",
    },
    Row {
        signed: [true, false],
        widths: [31, 31],
        by: 30,
        bits: [29, 21],
        samples: [[2, 2, 0, 12], [4, 1, 0, 28], [6, 7, 0, 19]],
        values: "448fe6d0 1db1c7b12 342fefa8e5806ef 49030d1 3fffb5ff 3b6f852e 7029cf0e 34b9b5df 3f58c3c40000000 0 \
            7880000 1fa 7eb1878b4b9b5df 448fe6d0 1db1c7b12 8e5806ef 49030d1 3fffb5ff 3b6f852e 1f029cf0e 34b9b5df \
            40000000 0 7880000 1fa b4b9b5df 0 1 1 1 0 0 7e 7e fd630f1 36f675cc 46dfbade ",
    },
    Row {
        signed: [false, true],
        widths: [31, 64],
        by: 7,
        bits: [28, 20],
        samples: [[3, 3, 1, 13], [4, 6, 1, 6], [5, 3, 0, 23]],
        values: "128b2f331e3e8b5f ffffffffffffffffed74d0cd05858bbf 14b9dd865a99d3186c95530 400b80 128b2f331dfe7fdf \
            128b2f331dbe745f 6e1df470 128b2f330c5c7fd0 8f105c780 23c417 47800000 23 11e20b8f128b2f330c5c7fd0 \
            11e3e8b5f 105858bbf 186c95530 400b80 11dfe7fdf 11dbe745f 6e1df470 10c5c7fd0 f105c780 23c417 47800000 23 \
            10c5c7fd0 0 1 1 1 0 0 11e 11e 11e20b8f 36f675cc 56e4827e ",
    },
    Row {
        signed: [false, false],
        widths: [32, 32],
        by: 0,
        bits: [20, 18],
        samples: [[5, 6, 0, 18], [2, 1, 0, 32], [0, 1, 1, 26]],
        values: "17fffffff 7fffffff 7fffffff80000000 80000000 ffffffff 7fffffff 0 ffffffff ffffffff ffffffff \
            fc000000 3f ffffffff80000000 17fffffff 7fffffff 180000000 80000000 ffffffff 7fffffff 0 ffffffff \
            ffffffff ffffffff fc000000 3f 180000000 0 1 0 0 1 1 7 7 ffffffff 7fffffff 80000001 ",
    },
    Row {
        signed: [true, true],
        widths: [32, 32],
        by: 12,
        bits: [22, 5],
        samples: [[7, 7, 1, 2], [2, 2, 0, 31], [4, 2, 0, 17]],
        values: "b6f675cb 1b6f675cd 1b7b3ae5c9098a34 36f675cc 7fffffff 49098a33 c9098a33 7fffffff 36f675cc000 36f67 \
            eb980000 1b7b 36f675cc7fffffff b6f675cb 1b6f675cd 1c9098a34 36f675cc 7fffffff 49098a33 1c9098a33 \
            7fffffff 1675cc000 36f67 1eb980000 1b7b 7fffffff 0 1 1 1 0 0 3b3ae 3b3ae 36f675cc 7fffffff 49098a32 ",
    },
    Row {
        signed: [true, false],
        widths: [32, 32],
        by: 6,
        bits: [17, 14],
        samples: [[7, 6, 1, 15], [2, 0, 1, 5], [0, 4, 0, 16]],
        values: "36f675cb 3c9098a33 1ffffffffc9098a34 36f675cc 1ffffffff 1c9098a33 0 36f675cc 3fffffffc0 3ffffff \
            ffff0000 ffffffff ffffffff36f675cc 36f675cb 1c9098a33 1c9098a34 36f675cc 1ffffffff 1c9098a33 0 36f675cc \
            1ffffffc0 1ffffffff 1ffff0000 1ffffffff 136f675cc 0 1 1 1 0 0 f f 1ffffffff 7fffffff 180000001 ",
    },
    Row {
        signed: [false, true],
        widths: [32, 127],
        by: 19,
        bits: [26, 22],
        samples: [[6, 1, 1, 0], [0, 2, 0, 14], [1, 7, 1, 2]],
        values: "81ed162ae2eb1547f150524b4b9b5df f7e12e9d51d14eab80eafadc4b464a21 571758aa3f8a82921a5cdaef80000000 \
            0 81ed162ae2eb1547f150524b4b9b5df 81ed162ae2eb1547f150524b4b9b5df 7fffffff 80000000 4000000000000 1000 \
            0 20000000 81ed162ae2eb1547f15052434b9b5df b4b9b5df 4b464a21 180000000 0 b4b9b5df b4b9b5df 7fffffff \
            80000000 0 1000 0 20000000 34b9b5df 0 1 1 1 0 0 0 0 80000000 ffffffff 7ffffffe ",
    },
    Row {
        signed: [false, false],
        widths: [33, 33],
        by: 24,
        bits: [13, 0],
        samples: [[7, 1, 1, 29], [4, 5, 0, 28], [3, 2, 0, 2]],
        values: "20c5c7fcf c5c7fd1 10c5c7fcef3a38030 c5c7fd0 1ffffffff 1f3a3802f f3a3802f ffffffff 10c5c7fd0000000 \
            10c 3171ff40 43171ff4 218b8ffa0ffffffff c5c7fcf c5c7fd1 f3a38030 c5c7fd0 1ffffffff 1f3a3802f f3a3802f \
            ffffffff 1d0000000 10c 3171ff40 43171ff4 ffffffff 0 1 0 0 1 1 3fd0 3fd0 10c5c7fd0 36f675cc 13b550a3f ",
    },
    Row {
        signed: [true, true],
        widths: [33, 33],
        by: 12,
        bits: [24, 22],
        samples: [[2, 3, 1, 0], [1, 0, 0, 27], [6, 4, 1, 34]],
        values: "346cca6bd 2d8dfbb25 3cc6ff7a360a3250c 6d630c0 13ff675fd 13920453d f029cf0e 10fd630f1 10fd630f1000 \
            10fd63 0 1ffffffff 21fac61e236f675cc 146cca6bd d8dfbb25 160a3250c 6d630c0 13ff675fd 13920453d f029cf0e \
            10fd630f1 1630f1000 1fff0fd63 0 1ffffffff 36f675cc 0 1 1 1 0 0 7 7 10fd630f1 100000000 1f029cf0a ",
    },
    Row {
        signed: [true, false],
        widths: [33, 33],
        by: 3,
        bits: [18, 8],
        samples: [[0, 1, 1, 11], [2, 3, 1, 8], [2, 4, 0, 10]],
        values: "136f675cb c9098a33 36f675cbc9098a34 36f675cc ffffffff c9098a33 100000000 36f675cc 7fffffff8 \
            1fffffff 1fffffc00 3fffff 1fffffffe36f675cc 136f675cb c9098a33 1c9098a34 36f675cc ffffffff c9098a33 \
            100000000 36f675cc 1fffffff8 1fffffff 1fffffc00 3fffff 36f675cc 0 1 0 0 1 1 7ff 7ff ffffffff ffffffff 1 ",
    },
    Row {
        signed: [false, true],
        widths: [33, 128],
        by: 29,
        bits: [32, 19],
        samples: [[3, 1, 0, 9], [0, 2, 1, 19], [5, 0, 1, 1]],
        values: "11e20b8e 11e20b90 ffffffffffffffffffffffffee1df471 11e20b8f ffffffffffffffffffffffffffffffff \
            ffffffffffffffffffffffffee1df470 1ee1df470 11e20b8f 23c4171e0000000 0 23c4171e 8f105c7 \
            ffffffffffffffffffffffffffffffff 11e20b8e 11e20b90 1ee1df471 11e20b8f 1ffffffff 1ee1df470 1ee1df470 \
            11e20b8f 1e0000000 0 23c4171e 8f105c7 1ffffffff 0 1 0 0 1 1 23c 23c 11e20b8f 1ffffffff 1ee1df471 ",
    },
    Row {
        signed: [false, false],
        widths: [64, 64],
        by: 40,
        bits: [57, 57],
        samples: [[4, 7, 1, 39], [0, 0, 0, 10], [0, 4, 1, 35]],
        values: "1099950d836f675cb f666af27c9098a33 99950d836f675cbf666af27c9098a34 99950d836f675cc \
            ffffffffffffffff f666af27c9098a33 0 ffffffffffffffff ffffffffffffffff0000000000 ffffff fffffff800000000 \
            1fffffff ffffffffffffffff099950d836f675cc 36f675cb 1c9098a33 1c9098a34 36f675cc 1ffffffff 1c9098a33 0 \
            1ffffffff 0 ffffff 0 1fffffff 36f675cc 0 1 0 0 1 1 1 1 1ffffffff ffffffffffffffff 1 ",
    },
    Row {
        signed: [true, true],
        widths: [64, 64],
        by: 35,
        bits: [62, 58],
        samples: [[1, 6, 0, 3], [6, 0, 1, 1], [1, 0, 1, 13]],
        values: "ffffffffffffffff7fffffffffffffff ffffffffffffffff8000000000000001 8000000000000000 \
            ffffffffffffffff8000000000000000 ffffffffffffffffffffffffffffffff 7fffffffffffffff 7fffffffffffffff \
            ffffffffffffffff8000000000000000 fffffffc000000000000000000000000 fffffffffffffffffffffffff0000000 0 \
            fffffffffffffffffffc000000000000 8000000000000000ffffffffffffffff 1ffffffff 1 0 0 1ffffffff 1ffffffff \
            1ffffffff 0 0 1f0000000 0 0 1ffffffff 0 1 1 1 0 0 0 0 0 93bd04cf0fd630f1 10fd630f4 ",
    },
    Row {
        signed: [true, false],
        widths: [64, 64],
        by: 13,
        bits: [63, 63],
        samples: [[5, 0, 0, 15], [0, 3, 1, 31], [5, 5, 0, 15]],
        values: "7b382e4823c4171e 0 ed3c2336693054be32ebf59670199e1 3d9c172411e20b8f 3d9c172411e20b8f 0 \
            ffffffffffffffffc263e8dbee1df470 3d9c172411e20b8f 7b382e4823c4171e000 1ece0b9208f10 b9208f105c78000 \
            7b382e4823c4 3d9c172411e20b8f3d9c172411e20b8f 23c4171e 0 1670199e1 11e20b8f 11e20b8f 0 1ee1df470 \
            11e20b8f 4171e000 b9208f10 105c78000 2e4823c4 11e20b8f 1 0 0 1 0 1 0 0 11e20b8f ffffffffffffffff \
            1ee1df471 ",
    },
    Row {
        signed: [false, true],
        widths: [64, 1],
        by: 32,
        bits: [23, 8],
        samples: [[7, 7, 1, 5], [0, 7, 0, 23], [2, 3, 0, 25]],
        values: "7fffffffffffffff 7fffffffffffffff 0 0 7fffffffffffffff 7fffffffffffffff 8000000000000000 0 \
            7fffffffffffffff00000000 7fffffff fffffffffe000000 3fffffffff fffffffffffffffe 1ffffffff 1ffffffff 0 0 \
            1ffffffff 1ffffffff 0 0 100000000 7fffffff 1fe000000 1ffffffff 1fffffffe 0 1 0 0 1 1 ffff ffff \
            1ffffffff ffffffffffffffff 1 ",
    },
    Row {
        signed: [false, false],
        widths: [127, 127],
        by: 5,
        bits: [66, 30],
        samples: [[2, 5, 1, 80], [7, 7, 0, 76], [1, 5, 0, 72]],
        values: "4d116ece1738f7d93d9c172411e20b8f 32ee9131e8c70826c263e8dbee1df471 c0000000000000000000000000000000 \
            0 4d116ece1738f7d93d9c172411e20b8f 4d116ece1738f7d93d9c172411e20b8f 3fffffffffffffffffffffffffffffff \
            d116ece1738f7d93d9c172411e20b8f 0 2000000000000000000000000000000 0 40000000000000 \
            d116ece1738f7d93d9c172411e20b8f 11e20b8f 1ee1df471 0 0 11e20b8f 11e20b8f 1ffffffff 11e20b8f 0 0 0 0 \
            11e20b8f 0 1 0 0 1 1 0 0 0 81ed162ae2eb1547f15052434b9b5df 1cb464a1e ",
    },
    Row {
        signed: [true, true],
        widths: [127, 127],
        by: 18,
        bits: [125, 98],
        samples: [[2, 0, 0, 65], [2, 0, 0, 27], [3, 1, 1, 117]],
        values: "c92f902bd23f0824128b2f330c5c7fd0 492f902bd23f0824128b2f330c5c7fd0 0 0 \
            c92f902bd23f0824128b2f330c5c7fd0 c92f902bd23f0824128b2f330c5c7fd0 f6d06fd42dc0f7dbed74d0ccf3a3802f \
            92f902bd23f0824128b2f330c5c7fd0 40af48fc20904a2cbccc3171ff400000 24be40af48fc20904a2cbccc317 \
            fa000000000000000000000000000000 49 40000000000000000000000000000000 10c5c7fd0 10c5c7fd0 0 0 10c5c7fd0 \
            10c5c7fd0 f3a3802f 10c5c7fd0 1ff400000 cbccc317 0 49 0 0 1 0 0 1 1 24be40a 24be40a 10c5c7fd0 \
            3fffffffffffffffffffffffffffffff f3a3802e ",
    },
    Row {
        signed: [true, false],
        widths: [127, 127],
        by: 34,
        bits: [124, 120],
        samples: [[3, 0, 1, 63], [4, 5, 1, 62], [5, 7, 1, 16]],
        values: "15304030c567a92dbcb11c48469bc16e 4f29d6b690a4684be8711ffdd2855b0 26febae8ad74f3eae5c5eadfcc6b2c91 \
            81040420628b1503d14052410a0018f d1fffeebf3ef7dd7f9d172435fbbfdf 50fbfacb916468d42891200255bbe50 \
            f2ee9131e8c70826c263e8dbee1df470 d116ece1738f7d93d9c172411e20b8f 5ce3df64f6705c9047882e3c00000000 \
            3445bb385ce3df64f6705c9 eece1738f7d93d9c172411e20b8f0000 d116ece1738f7d93d9c172411e2 \
            881ed162ae2eb1547f15052434b9b5df 469bc16e 1dd2855b0 1cc6b2c91 10a0018f 35fbbfdf 255bbe50 1ee1df470 \
            11e20b8f 0 4f6705c9 b8f0000 172411e2 34b9b5df 0 1 0 0 1 1 d d 11e20b8f 6f03675a1600a35a099950d836f675cc \
            56e4827e ",
    },
    Row {
        signed: [false, true],
        widths: [127, 7],
        by: 26,
        bits: [119, 116],
        samples: [[3, 7, 1, 83], [2, 7, 1, 16], [0, 2, 1, 55]],
        values: "8000000000000000000000000000003e 7fffffffffffffffffffffffffffffc0 7fffffffffffffffffffffffffffffc1 \
            3f 7fffffffffffffffffffffffffffffff 7fffffffffffffffffffffffffffffc0 0 7fffffffffffffffffffffffffffffff \
            fffffffffffffffffffffffffc000000 1fffffffffffffffffffffffff 7fffffffffffffffff80000000000000 \
            ffffffffffffffffff ffffffffffffffffffffffffffffffbf 3e 1ffffffc0 1ffffffc1 3f 1ffffffff 1ffffffc0 0 \
            1ffffffff 1fc000000 1ffffffff 0 1ffffffff 1ffffffbf 0 1 0 0 1 1 f f 1ffffffff \
            3fffffffffffffffffffffffffffffff 1 ",
    },
    Row {
        signed: [false, false],
        widths: [128, 128],
        by: 91,
        bits: [73, 12],
        samples: [[4, 0, 0, 118], [0, 3, 0, 4], [2, 1, 0, 99]],
        values: "ffffffffffffffffffffffffffffffff ffffffffffffffffffffffffffffffff 80000000000000000000000000000000 \
            0 ffffffffffffffffffffffffffffffff ffffffffffffffffffffffffffffffff 80000000000000000000000000000000 \
            80000000000000000000000000000000 fffffffff80000000000000000000000 fffffffff \
            fffffff8000000000000000000000000 fffffff 80000000000000000000000000000000 1ffffffff 1ffffffff 0 0 \
            1ffffffff 1ffffffff 0 0 0 1ffffffff 0 fffffff 0 0 1 1 1 0 0 3fffffffffffffff 1ffffffff 1ffffffff \
            ffffffffffffffffffffffffffffffff 1 ",
    },
    Row {
        signed: [true, true],
        widths: [128, 128],
        by: 43,
        bits: [77, 7],
        samples: [[3, 4, 1, 80], [3, 3, 1, 12], [4, 0, 0, 112]],
        values: "6f03675a1600a35a099950d836f675cb 6f03675a1600a35a099950d836f675cd 90fc98a5e9ff5ca5f666af27c9098a34 \
            6f03675a1600a35a099950d836f675cc ffffffffffffffffffffffffffffffff 90fc98a5e9ff5ca5f666af27c9098a33 \
            90fc98a5e9ff5ca5f666af27c9098a33 ffffffffffffffffffffffffffffffff 51ad04cca86c1b7b3ae600000000000 \
            de06ceb42c0146b41332a 75cc0000000000000000000000000000 6f03 ffffffffffffffffffffffffffffffff 36f675cb \
            36f675cd 1c9098a34 36f675cc 1ffffffff 1c9098a33 1c9098a33 1ffffffff 0 6b41332a 0 6f03 1ffffffff 0 1 0 0 \
            1 1 46b41332a1b06deceb 1b06deceb 36f675cc 892f902bd23f0824128b2f330c5c7fd0 13aaa0a19 ",
    },
    Row {
        signed: [true, false],
        widths: [128, 128],
        by: 41,
        bits: [112, 86],
        samples: [[5, 1, 0, 101], [7, 2, 1, 32], [1, 2, 0, 34]],
        values: "ffffffffffffffffffffffffffffffff 1 80000000000000000000000000000000 0 \
            ffffffffffffffffffffffffffffffff ffffffffffffffffffffffffffffffff 7fffffffffffffffffffffffffffffff \
            7fffffffffffffffffffffffffffffff 0 ffffffffffc000000000000000000000 0 ffffffffe00000000000000000000000 \
            7fffffffffffffffffffffffffffffff 1ffffffff 1 0 0 1ffffffff 1ffffffff 1ffffffff 1ffffffff 0 0 0 0 \
            1ffffffff 0 1 1 1 0 0 0 0 0 881ed162ae2eb1547f15052434b9b5df 373dc9de ",
    },
    Row {
        signed: [false, true],
        widths: [128, 8],
        by: 75,
        bits: [73, 58],
        samples: [[0, 3, 0, 84], [3, 0, 1, 58], [2, 6, 0, 117]],
        values: "7ffffffffffffffffffffffffffffff0 8000000000000000000000000000000e 8000000000000000000000000000000f \
            7ffffffffffffffffffffffffffffff1 ffffffffffffffffffffffffffffffff 8000000000000000000000000000000e \
            80000000000000000000000000000000 fffffffffffffffffffffffffffffff1 fffffffffffff8000000000000000000 \
            fffffffffffff ffe00000000000000000000000000000 3ff fffffffffffffffffffffffffffffff1 1fffffff0 e f \
            1fffffff1 1ffffffff e 0 1fffffff1 0 1ffffffff 0 3ff 1fffffff1 0 1 0 0 1 1 ffff ffff 1ffffffff \
            892f902bd23f0824128b2f330c5c7fd0 10c5c7fd4 ",
    },
];
