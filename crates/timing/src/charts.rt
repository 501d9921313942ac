// The pairs of charts in the folder baseline/charts of the repository, by the names of their folders.

// A chart by its rows, as a table chart reads them.
#[derive(Clone, Copy)]
pub struct TableData {
    pub states: u8,
    pub letters: u8,
    pub starts: u32,
    pub marks: u32,
    pub rows: &'static [u32],
}

#[derive(Clone, Copy)]
pub struct Pair {
    pub name: &'static str,
    pub duty: TableData,
    pub rule: TableData,
}

// A ring of 24 states: `a` leads on to the next state and `b` back to the same one.
const RING: [u32; 48] = [
    0x000002, 0x000001, 0x000004, 0x000002, 0x000008, 0x000004, 0x000010, 0x000008, 0x000020,
    0x000010, 0x000040, 0x000020, 0x000080, 0x000040, 0x000100, 0x000080, 0x000200, 0x000100,
    0x000400, 0x000200, 0x000800, 0x000400, 0x001000, 0x000800, 0x002000, 0x001000, 0x004000,
    0x002000, 0x008000, 0x004000, 0x010000, 0x008000, 0x020000, 0x010000, 0x040000, 0x020000,
    0x080000, 0x040000, 0x100000, 0x080000, 0x200000, 0x100000, 0x400000, 0x200000, 0x800000,
    0x400000, 0x000001, 0x800000,
];

pub const PAIRS: [Pair; 12] = [
    Pair {
        name: "3-512-break",
        duty: TableData {
            states: 3,
            letters: 2,
            starts: 0b001,
            marks: 0b110,
            rows: &[0b001, 0b110, 0b000, 0b100, 0b011, 0b100],
        },
        rule: TableData {
            states: 3,
            letters: 2,
            starts: 0b001,
            marks: 0b001,
            rows: &[0b110, 0b000, 0b100, 0b010, 0b100, 0b001],
        },
    },
    Pair {
        name: "3-512-keep",
        duty: TableData {
            states: 3,
            letters: 2,
            starts: 0b001,
            marks: 0b100,
            rows: &[0b110, 0b101, 0b000, 0b001, 0b010, 0b000],
        },
        rule: TableData {
            states: 3,
            letters: 2,
            starts: 0b001,
            marks: 0b110,
            rows: &[0b010, 0b101, 0b010, 0b010, 0b000, 0b011],
        },
    },
    Pair {
        name: "4-512-break",
        duty: TableData {
            states: 7,
            letters: 2,
            starts: 0b0000001,
            marks: 0b0000001,
            rows: &[
                0b0000010, 0b0000001, 0b0000100, 0b0000010, 0b0001000, 0b0000100, 0b0010000,
                0b0001000, 0b0100000, 0b0010000, 0b1000000, 0b0100000, 0b0000001, 0b1000000,
            ],
        },
        rule: TableData {
            states: 4,
            letters: 2,
            starts: 0b0001,
            marks: 0b0111,
            rows: &[
                0b0000, 0b1100, 0b0110, 0b1000, 0b0010, 0b0000, 0b0010, 0b1000,
            ],
        },
    },
    Pair {
        name: "4-512-keep",
        duty: TableData {
            states: 3,
            letters: 2,
            starts: 0b001,
            marks: 0b111,
            rows: &[0b010, 0b110, 0b100, 0b000, 0b000, 0b010],
        },
        rule: TableData {
            states: 4,
            letters: 2,
            starts: 0b0001,
            marks: 0b1101,
            rows: &[
                0b1010, 0b0100, 0b1010, 0b0110, 0b1000, 0b1010, 0b1000, 0b0001,
            ],
        },
    },
    Pair {
        name: "3-4096-break",
        duty: TableData {
            states: 5,
            letters: 2,
            starts: 0b00001,
            marks: 0b01011,
            rows: &[
                0b00010, 0b01100, 0b00000, 0b10000, 0b00001, 0b10000, 0b00100, 0b00000, 0b00001,
                0b01000,
            ],
        },
        rule: TableData {
            states: 3,
            letters: 2,
            starts: 0b001,
            marks: 0b010,
            rows: &[0b100, 0b010, 0b000, 0b001, 0b011, 0b110],
        },
    },
    Pair {
        name: "3-4096-keep",
        duty: TableData {
            states: 5,
            letters: 2,
            starts: 0b00001,
            marks: 0b10100,
            rows: &[
                0b10101, 0b10001, 0b00101, 0b00010, 0b10100, 0b00000, 0b10100, 0b00010, 0b01000,
                0b00010,
            ],
        },
        rule: TableData {
            states: 3,
            letters: 2,
            starts: 0b001,
            marks: 0b010,
            rows: &[0b010, 0b100, 0b001, 0b001, 0b110, 0b001],
        },
    },
    Pair {
        name: "4-4096-break",
        duty: TableData {
            states: 4,
            letters: 2,
            starts: 0b0001,
            marks: 0b0111,
            rows: &[
                0b1010, 0b0000, 0b0010, 0b0100, 0b0000, 0b1001, 0b0000, 0b1100,
            ],
        },
        rule: TableData {
            states: 4,
            letters: 2,
            starts: 0b0001,
            marks: 0b1110,
            rows: &[
                0b0110, 0b0100, 0b0001, 0b0100, 0b1010, 0b0000, 0b0101, 0b0100,
            ],
        },
    },
    Pair {
        name: "4-4096-keep",
        duty: TableData {
            states: 2,
            letters: 2,
            starts: 0b01,
            marks: 0b11,
            rows: &[0b10, 0b00, 0b00, 0b01],
        },
        rule: TableData {
            states: 4,
            letters: 2,
            starts: 0b0001,
            marks: 0b1100,
            rows: &[
                0b0101, 0b0110, 0b0101, 0b1110, 0b1110, 0b1111, 0b1001, 0b1111,
            ],
        },
    },
    Pair {
        name: "3-25505-break",
        duty: TableData {
            states: 24,
            letters: 2,
            starts: 1,
            marks: 1,
            rows: &RING,
        },
        rule: TableData {
            states: 3,
            letters: 2,
            starts: 0b001,
            marks: 0b001,
            rows: &[0b101, 0b100, 0b000, 0b011, 0b101, 0b010],
        },
    },
    Pair {
        name: "3-20308-keep",
        duty: TableData {
            states: 24,
            letters: 2,
            starts: 1,
            marks: 1,
            rows: &RING,
        },
        rule: TableData {
            states: 3,
            letters: 2,
            starts: 0b001,
            marks: 0b101,
            rows: &[0b001, 0b100, 0b110, 0b011, 0b010, 0b001],
        },
    },
    Pair {
        name: "4-26931-break",
        duty: TableData {
            states: 3,
            letters: 2,
            starts: 0b001,
            marks: 0b100,
            rows: &[0b111, 0b000, 0b000, 0b101, 0b000, 0b010],
        },
        rule: TableData {
            states: 4,
            letters: 2,
            starts: 0b0001,
            marks: 0b1001,
            rows: &[
                0b1000, 0b0011, 0b0100, 0b0101, 0b0000, 0b1101, 0b0000, 0b0110,
            ],
        },
    },
    Pair {
        name: "4-23599-keep",
        duty: TableData {
            states: 3,
            letters: 2,
            starts: 0b001,
            marks: 0b100,
            rows: &[0b100, 0b010, 0b101, 0b111, 0b000, 0b111],
        },
        rule: TableData {
            states: 4,
            letters: 2,
            starts: 0b0001,
            marks: 0b0101,
            rows: &[
                0b1100, 0b0110, 0b1101, 0b0110, 0b1001, 0b1100, 0b1011, 0b1110,
            ],
        },
    },
];
