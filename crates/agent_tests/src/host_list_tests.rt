use agent_core::{HostsFault, hosts_in};
use std::alloc::{AllocError, Global};
use std::env::Env;
use std::process::Abort;

/// The bytes of a file, and the hosts that it lists, with a blank before each, or its fault.
const ROWS: [(&[u8], &str); 9] = rows! {
    b"", "";
    b"10.0.0.1:7946", " 10.0.0.1:7946";
    b"10.0.0.2:1\r\n\r\n# a host\r\n\t#another\n  10.0.0.1:65535 \n\n10.0.0.2:1\n", " 10.0.0.2:1 10.0.0.1:65535 10.0.0.2:1";
    b"\xe2\x80\x8310.0.0.1:1\xc2\xa0\n", " 10.0.0.1:1";
    b"10.0.0.1:1\n\n10.0.0.1:0\nx", "line 3 is not an IPv4 address and a port of 1 to 65535, as 127.0.0.1:7946";
    b"10.0.0.1:1 # a\n", "line 1 is not an IPv4 address and a port of 1 to 65535, as 127.0.0.1:7946";
    b"10.0.0.1:1 10.0.0.2:1", "line 1 is not an IPv4 address and a port of 1 to 65535, as 127.0.0.1:7946";
    b"a\n# \xff", "it is not UTF-8";
    b"\r", "";
};

/// Returns the hosts that bytes list, with a blank before each, or their fault.
fn told(rt: &(impl Env + Abort), alloc: Global, bytes: &[u8]) -> String {
    match again!(rt, HostsFault::Memory, hosts_in(alloc, bytes)) {
        Ok(hosts) => {
            let mut text = String::new(alloc);
            for host in hosts.as_slice() {
                let one = again!(rt, AllocError, format!(in alloc; " {host}"));
                let one = one.ok().expect(rt, "a text");
                let pushed = again!(rt, _, text.push_str(one.as_str()));
                assert!(rt; pushed.is_ok());
            }
            text
        }
        Err(fault) => {
            let text = again!(rt, AllocError, format!(in alloc; "{fault}"));
            text.ok().expect(rt, "a text")
        }
    }
}

/// Returns this many bytes of a list of these lines.
fn repeated(rt: &(impl Env + Abort), alloc: Global, line: &[u8], count: usize) -> Vec<u8> {
    let mut bytes = Vec::new(alloc);
    for _ in 0..count {
        let pushed = again!(rt, _, bytes.extend_from_slice(line));
        assert!(rt; pushed.is_ok());
    }
    bytes
}

#[test]
fn lists_hosts(rt: HostRuntime) {
    for (bytes, wanted) in &ROWS {
        let text = told(&rt, rt.alloc(), bytes);
        assert!(rt; text.as_str() == *wanted, "{text}, not {wanted}");
    }
}

#[test]
fn says_that_a_list_is_too_long(rt: HostRuntime) {
    for (line, count, wanted) in &[
        (
            &b"1.1.1.1:1\n"[..],
            4_097usize,
            "it has more than 4096 hosts",
        ),
        (&b"#"[..], 131_072, ""),
        (&b"\xff"[..], 131_073, "it has more than 131072 bytes"),
    ] {
        let bytes = repeated(&rt, rt.alloc(), line, *count);
        let text = told(&rt, rt.alloc(), bytes.as_slice());
        assert!(rt; text.as_str() == *wanted, "{text}, not {wanted}");
    }
}
