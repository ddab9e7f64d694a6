// The rows of tables in words, for texts of sounds, and for texts of other kinds in expressions.
use crate::patterns::Rows;

pub static SOUNDS: [Rows; 25] = [
    Rows(b"", b"~"),
    Rows(b"~", b"~"),
    Rows(b"bd", b"s=bd"),
    Rows(b"bd:3", b"n=3 s=bd"),
    Rows(b"808", b"s=808"),
    Rows(b"bd sn", b"s=bd; s=sn; timecat 1*0 1*1"),
    Rows(b"bd*2", b"s=bd; fast 2 0"),
    Rows(b"bd/2", b"s=bd; fast 1/2 0"),
    Rows(b"bd*1", b"s=bd"),
    Rows(b"bd*0", b"s=bd; ~"),
    Rows(b"bd/0", b"s=bd; ~"),
    Rows(b"bd*-1", b"s=bd; rev 0"),
    Rows(b"bd*-2", b"s=bd; fast 2 0; rev 1"),
    Rows(b"bd/-2", b"s=bd; fast 1/2 0; rev 1"),
    Rows(b"bd*1.5", b"s=bd; fast 3/2 0"),
    Rows(b"bd*4%6", b"s=bd; fast 2/3 0"),
    Rows(b"bd@3 sn", b"s=bd; s=sn; timecat 3*0 1*1"),
    Rows(b"bd@2 sn@2", b"s=bd; s=sn; timecat 1*0 1*1"),
    Rows(b"bd@1.5 sn@0.5", b"s=bd; s=sn; timecat 3*0 1*1"),
    Rows(b"bd _ sn", b"s=bd; s=sn; timecat 2*0 1*1"),
    Rows(b"bd sn !", b"s=bd; s=sn; timecat 1*0 1*1 1*1"),
    Rows(b"bd@2 ! sn", b"s=bd; s=sn; timecat 2*0 2*0 1*1"),
    Rows(b"bd!3 sn", b"s=bd; s=sn; timecat 1*0 1*0 1*0 1*1"),
    Rows(
        b"[bd sn] hh",
        b"s=bd; s=sn; timecat 1*0 1*1; s=hh; timecat 1*2 1*3",
    ),
    Rows(b"bd, sn", b"s=bd; s=sn; stack 0 1"),
];

pub static CHANGED: [Rows; 30] = [
    Rows(b"<bd@2 sn@2>", b"s=bd; s=sn; timecat 1*0 1*1; fast 1/4 2"),
    Rows(b"{bd, sn}%2", b"s=bd; fast 2 0; s=sn; fast 2 2; stack 1 3"),
    Rows(b"bd(,9)", b"s=bd; ~; ~"),
    Rows(b"bd(9,8,~)", b"s=bd; ~; ~"),
    Rows(b"bd!3", b"s=bd; timecat 1*0 1*0 1*0"),
    Rows(b"bd _ !", b"s=bd; timecat 1*0 1*0"),
    Rows(b"<bd sn>", b"s=bd; s=sn; cat 0 1"),
    Rows(b"<bd@3 sn>", b"s=bd; s=sn; timecat 3*0 1*1; fast 1/4 2"),
    Rows(b"<bd, sn hh>", b"s=bd; s=sn; s=hh; cat 1 2; stack 0 3"),
    Rows(b"{bd sn hh}", b"s=bd; s=sn; s=hh; timecat 1*0 1*1 1*2"),
    Rows(
        b"{bd sn hh}%4",
        b"s=bd; s=sn; s=hh; timecat 1*0 1*1 1*2; fast 4/3 3",
    ),
    Rows(
        b"{bd sn, hh hh hh}",
        b"s=bd; s=sn; timecat 1*0 1*1; s=hh; s=hh; s=hh; timecat 1*3 1*4 1*5; fast 2/3 6; stack 2 7",
    ),
    Rows(b"{,bd}", b"~; s=bd; ~; stack 0 2"),
    Rows(
        b"bd . sn hh . cp",
        b"s=bd; s=sn; s=hh; timecat 1*1 1*2; s=cp; timecat 1*0 1*3 1*4",
    ),
    Rows(b"bd . . sn", b"s=bd; ~; s=sn; timecat 1*0 1*1 1*2"),
    Rows(
        b"bd(3,8)",
        b"s=bd; ~; timecat 1*0 1*1 1*1 1*0 1*1 1*1 1*0 1*1",
    ),
    Rows(
        b"bd(3,8,2)",
        b"s=bd; ~; timecat 1*1 1*0 1*1 1*1 1*0 1*1 1*0 1*1",
    ),
    Rows(
        b"bd(-3,8)",
        b"s=bd; ~; timecat 1*1 1*0 1*0 1*1 1*0 1*0 1*1 1*0",
    ),
    Rows(b"bd(4,4)", b"s=bd; timecat 1*0 1*0 1*0 1*0"),
    Rows(b"bd(1,1)", b"s=bd"),
    Rows(b"bd(0,1)", b"s=bd; ~"),
    Rows(
        b"bd(<3 5>,8)",
        b"s=bd; #0; #1; cat 1 2; ~; timecat 1*0 1*4 1*4 1*0 1*4 1*4 1*0 1*4; ~; timecat 1*0 1*6 1*0 1*0 1*6 1*0 1*0 1*6; pick 3 5 7",
    ),
    Rows(
        b"bd(1,<1 2>,<0 1>)",
        b"s=bd; #0; #1; cat 1 2; #0; #1; cat 4 5; pick 6 0 0; ~; timecat 1*0 1*8; ~; timecat 1*10 1*0; pick 6 9 11; pick 3 7 12",
    ),
    Rows(
        b"bd*<2 3>",
        b"s=bd; #0; #1; cat 1 2; fast 2 0; fast 3 0; pick 3 4 5",
    ),
    Rows(
        b"bd/<2 0 1>",
        b"s=bd; #0; #1; #2; cat 1 2 3; fast 1/2 0; ~; pick 4 5 6 0",
    ),
    Rows(
        b"bd*<3 1 3.0>",
        b"s=bd; #0; #1; #0; cat 1 2 3; fast 3 0; pick 4 5 0",
    ),
    Rows(b"bd*<>", b"s=bd; ~; ~"),
    Rows(b"bd*[2]", b"s=bd; #0; fast 2 0; pick 1 2"),
    Rows(
        b"{bd sn}%<2 4>",
        b"s=bd; s=sn; timecat 1*0 1*1; #0; #1; cat 3 4; fast 2 2; pick 5 2 6",
    ),
    Rows(
        b"{bd sn}%{2 3}%4",
        b"s=bd; s=sn; timecat 1*0 1*1; #0; #1; timecat 1*3 1*4; fast 2 5; fast 3/2 2; pick 6 2 7",
    ),
];

// Notes, whole numbers, words and truths.
pub static OTHERS: [Rows; 6] = [
    Rows(b"n \"0 .. 2\"", b"n=0; n=1; n=2; timecat 1*0 1*1 1*2"),
    Rows(b"n \"2 .. 0\"", b"n=2; n=1; n=0; timecat 1*0 1*1 1*2"),
    Rows(b"n \"c4 e -3\"", b"n=-12; n=4; n=-3; timecat 1*0 1*1 1*2"),
    Rows(b"speed \"2\"", b"speed=2"),
    Rows(b"unit \"a b\"", b"unit=a; unit=b; timecat 1*0 1*1"),
    Rows(
        b"mask \"t f 1\" $ s \"bd\"",
        b"true; false; true; timecat 1*0 1*1 1*2; s=bd; ?",
    ),
];
