//! Which host a head is for (RFC 9110, section 7.2).

ghost use Rattle.std.specs.Prelude.{◌≡◌};
ghost use Rattle.acq_page.specs.Requests.{is_named, is_other_host, is_port, is_this_machine};

/// Whether a field of a head names another host than this machine.
pub(crate) fn is_other_host(name: &[u8], value: &[u8]) -> bool
    ensures { result ≡ is_other_host name.now value.now }
{
    name.eq_ignore_ascii_case(b"Host") && !is_this_machine(value)
}

/// Whether a machine names itself so.
fn is_this_machine(value: &[u8]) -> bool
    ensures { result ≡ is_this_machine value.now }
{
    is_named(b"127.0.0.1", value) || is_named(b"localhost", value) || is_named(b"[::1]", value)
}

/// Whether a value is this name, in any case, and behind it a port, or none.
fn is_named(name: &[u8], value: &[u8]) -> bool
    ensures { result ≡ is_named name.now value.now }
{
    let end = name.len().min(value.len());
    value[..end].eq_ignore_ascii_case(name) && is_port(&value[end..])
}

/// Whether these bytes are a colon and digits, or none.
fn is_port(bytes: &[u8]) -> bool
    ensures { result ≡ is_port bytes.now }
{
    match bytes {
        [] => true,
        [b':', digits @ ..] => digits.iter().all(|digit| digit.is_ascii_digit()),
        _ => false,
    }
}
