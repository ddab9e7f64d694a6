// Texts of each kind that are read.

pub static SOUNDS: [&[u8]; 15] = [
    b"bd!3!",
    b"bd(,9) sn(9,8,~)",
    b"bd*[2] sn*<2 2.0 4%2>",
    b"00000000000000000000000000000001",
    b"bd*2 ~ [sn, hh hh] <a b>!3 cp@2",
    b"bd(<3 5>,8,0 .. 2)",
    b"bd(9,8,~)",
    b"bd(,8)",
    b"",
    b"{bd sn}%{3 4}%2",
    b"bd*{2 3}%4/1.5",
    b"bd:3! ! _ . 808:12 .",
    b" , ",
    b"[[[[[[[[[[[[[[[[bd]]]]]]]]]]]]]]]]",
    b"bd!1024",
];

pub static NOTES: [&[u8]; 2] = [b"cs#fn12 bff e# c99", b"cs4 -3 .. 3 ef bff10"];

pub static TRUTHS: [&[u8]; 2] = [b"1 0", b"t f 1 0 true*2 false"];

pub static RATIOS: [&[u8]; 3] = [b"0 .. 2 -65535%65535", b"1.5 -3%8 0 .. 2", b"<1 [2 3]>"];

pub static INTEGERS: [&[u8]; 1] = [b"1 -2 3 .. 0"];

pub static WORDS: [&[u8]; 1] = [b"c r"];

pub static COUNTS: [&[u8]; 1] = [b"2 <3 4>"];
