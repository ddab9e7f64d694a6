// What performers say.

// Lines, without who says them.
static TEXTS: [&str; 24] = [
    r#"d1 $ s "bd sn""#,
    r#"d2 $ s "hh*4""#,
    r#"d3 $ note "0 7" # s "midi""#,
    r#"d4 $ s "bd(3,8)""#,
    "look",
    r#"d5 $ every 4 (fast 2) $ s "cp ~""#,
    r#"d6 $ slow 4 $ note "<0 3 5>" # s "midi" # midichan 2"#,
    "hush",
    r#"jumpMod 3 4 $ s "arpy:1 arpy:2""#,
    "mute 3",
    r#"d7 $ rev $ s "a b c" # n "<1 2>""#,
    "solo 2",
    r#"d8 $ note "c [e,g]" # s "midi" # velocity 100"#,
    "unmuteAll",
    r#"d9 $ jux rev $ s "bd [sn cp]""#,
    "unsoloAll",
    r#"d16 $ s "{x y z}%2""#,
    "d1 silence",
    r#"jumpMod 1 8 $ note "12" # s "midi""#,
    r#"d10 $ s "bd . sn sn""#,
    "unsoloAll",
    r#"d2 $ s "hh*8""#,
    r#"d11 $ s "bd*2 [~ sn]""#,
    r#"d12 $ note "0 .. 3" # s "midi" # midichan 4"#,
];

/// What the performer says as this line, counted from 0. In 24 lines it says each of the texts once.
pub fn text_at(who: u32, line: u32) -> &'static str {
    let place = (who % 24 * 3 + line % 24 * 7) % 24;
    TEXTS[place as usize]
}
