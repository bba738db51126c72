use agent_core::laws::packs;
use agent_core::*;
use message_core::WireError;

/// A status, whether the body is JSON, the body, and the text that represents them.
const ROWS: [(u16, bool, &str, &str); 12] = rows! {
    200, false, "hello", "hello";
    200, false, "", "";
    200, true, "{}", "\u{2}200 {}";
    200, false, "\u{1}404 no", "\u{1}200 \u{1}404 no";
    200, false, "\u{2}", "\u{1}200 \u{2}";
    200, false, "\u{3}AAAA", "\u{1}200 \u{3}AAAA";
    404, false, "no such key\n", "\u{1}404 no such key\n";
    422, true, "{\"a\":\"\u{fc}\"}", "\u{2}422 {\"a\":\"\u{fc}\"}";
    201, false, "", "\u{1}201 ";
    204, false, " ", "\u{1}204  ";
    599, false, "x", "\u{1}599 x";
    500, true, "\u{1}", "\u{2}500 \u{1}";
};

#[test]
fn packs_and_unpacks_each_row(rt: HostRuntime) {
    packs();
    for (status, is_json, body, text) in &ROWS {
        assert!(rt; *status >= MIN_STATUS && *status <= MAX_STATUS);
        let packed = again!(
            &rt,
            WireError::Memory,
            pack(rt.alloc(), *status, *is_json, *body)
        )
        .ok()
        .expect(&rt, "a text");
        assert!(rt; packed.as_str() == *text, "{text}");
        let wanted = Packed {
            status: *status,
            is_json: *is_json,
            body: *body,
        };
        assert!(rt; unpack(*text) == wanted, "{text}");
    }
}

/// Texts that do not start with a mark, a status from 200 to 599 and a space. Each is a body with status 200.
const WHOLE: [&str; 10] = [
    "\u{1}",
    "\u{1}404",
    "\u{1}404no",
    "\u{1}199 no",
    "\u{1}600 no",
    "\u{1}0404 no",
    "\u{1}+44 no",
    "\u{2}44 no",
    "\u{3}404 no",
    "404 no",
];

#[test]
fn reads_other_texts_as_bodies(rt: HostRuntime) {
    for text in &WHOLE {
        let wanted = Packed {
            status: 200,
            is_json: false,
            body: *text,
        };
        assert!(rt; unpack(*text) == wanted, "{text}");
    }
}
