use agent_core::*;

#[test]
fn shows_a_page_that_asks_agents_alone(rt: HostRuntime) {
    let answer = Answer::page();
    assert!(rt; answer.status == 200 && answer.kind.name() == "text/html; charset=utf-8");
    assert!(rt; answer.body.starts_with("<!doctype html>\n") && answer.body.ends_with("</html>\n"));
    assert!(rt; answer.body.len() < 12_000);
    assert!(rt; answer.body.contains("get('members')") && answer.body.contains("get('owner/'"));
    assert!(rt; answer.body.contains("new URL('digest',link("));
    // The one address in it is the name of SVG.
    assert!(rt; answer.body.find("//www.") == answer.body.find("//www.w3.org/2000/svg"));
    assert!(rt; !answer.body.contains("src=") && !answer.body.contains("@import"));
}
