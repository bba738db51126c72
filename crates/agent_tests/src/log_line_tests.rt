use agent_core::json_line;
use change_core::Address;
use serde_json::Value;
use std::alloc::AllocError;

/// A message, and what stands for it between the quotes of a JSON string.
const MESSAGES: [(&str, &str); 5] = rows! {
    "", "";
    "say \"no\" to C:\\", "say \\\"no\\\" to C:\\\\";
    "two\nlines\r\n\tand \u{8}\u{c}", "two\\nlines\\r\\n\\tand \\b\\f";
    "\u{0}\u{1b}[31m\u{1f}\u{7f}", "\\u0000\\u001b[31m\\u001f\u{7f}";
    "é, 日本 and 🙂", "é, 日本 and 🙂";
};

/// Whatever a message is, its line is one JSON object, from which it is read back.
#[test]
fn writes_lines_of_the_log_as_json(rt: HostRuntime) {
    let alloc = rt.alloc();
    let own = Address::new(0x0a00_0001, 7_946).expect(&rt, "an address");
    let time = "2026-11-30T07:35:50.123Z";
    for (message, json) in &MESSAGES {
        let line = again!(
            &rt,
            AllocError,
            json_line(alloc, Some(time), own, "WARN", "agent::links", message)
        );
        let line = line.ok().expect(&rt, "a line");
        let wanted = again!(
            &rt,
            AllocError,
            format!(in alloc;
                "{{\"time\":\"2026-11-30T07:35:50.123Z\",\"address\":\"10.0.0.1:7946\",\"level\":\"WARN\",\"target\":\"agent::links\",\"message\":\"{json}\"}}"
            )
        );
        assert!(rt;
            line.as_str() == wanted.ok().expect(&rt, "a text").as_str(),
            "{json}"
        );
        let read = again!(&rt, _, Value::from_str(alloc, line.as_str()));
        let value = read.ok().expect(&rt, "JSON");
        assert!(rt;
            value.get("message").and_then(Value::as_str) == Some(*message),
            "{json}"
        );
    }
    let line = again!(
        &rt,
        AllocError,
        json_line(alloc, None, own, "INFO", "", "no clock")
    );
    let wanted =
        "{\"address\":\"10.0.0.1:7946\",\"level\":\"INFO\",\"target\":\"\",\"message\":\"no clock\"}";
    assert!(rt; line.ok().expect(&rt, "a line").as_str() == wanted);
}
