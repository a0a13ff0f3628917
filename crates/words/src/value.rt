// The tags of a value: "top 2 bits 1 for a number, 2 for a string" (01, Words that are lent).

pub const NUMBER: u32 = 1;

pub const STRING: u32 = 2;
