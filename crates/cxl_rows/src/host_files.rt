//! The topologies of the rows.

/// Two bridges with an endpoint of 2 GiB of volatile memory each.
pub(crate) const TWO_ENDPOINTS: &str = r#"
[[bridge]]
name = "hb0"
uid = 0
[[bridge]]
name = "hb1"
uid = 1
[[endpoint]]
name = "e0"
parent = "hb0"
port = 0
ram = 0x80000000
[[endpoint]]
name = "e1"
parent = "hb1"
port = 0
ram = 0x80000000
"#;

/// The same with one frame.
pub(crate) const ONE_FRAME: &str = r#"
frames = 1
bridge = [{ name = "hb0", uid = 0 }, { name = "hb1", uid = 1 }]
endpoint = [
    { name = "e0", parent = "hb0", port = 0, ram = 0x80000000 },
    { name = "e1", parent = "hb1", port = 0, ram = 0x80000000 },
]
"#;
