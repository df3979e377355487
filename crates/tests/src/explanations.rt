// Whole replies.
use explanation::reply::reply;
use std::test::Fail;

#[test]
fn replies(rt: HostRuntime) -> Result<(), Fail> {
    for (line, text) in [
        (
            "v4 10.0.0.0/8",
            "10.0.0.0/8, generator 0x1100d\n  tread 8: bucket 0xd552, digest 0xaaa\n  tread 0: bucket 0x0, digest 0xdff8\n",
        ),
        (
            "v5 10.0.0.0/8",
            "unknown list: there are v4, v4-small and v6\n",
        ),
        (
            "v4 10.0.0.0/33",
            "the length is beyond the width of the address\n",
        ),
        ("v4 10.0.0.1/8", "the address has bits after the length\n"),
    ] {
        assert!(rt; reply(rt.alloc(), line.as_bytes())?.as_str() == text);
    }
    Ok(())
}
