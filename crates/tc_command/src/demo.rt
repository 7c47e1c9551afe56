//! The demo: a server with two users, small budgets and public tokens.
use std::io;
use std::net::SocketAddr;

/// The demo's settings. The command line says where it listens.
pub const SETTINGS: &str = "listen = \"\"\nworkers = 2\n\
[[user]]\nname = \"alice\"\ntoken = \"demo-1\"\nbudget = 1048576\n\
[[user]]\nname = \"bob\"\ntoken = \"demo-2\"\nbudget = 1048576\n";

/// Prints the users, their tokens, and commands to type.
pub fn print_guide(rt: &HostRuntime, address: SocketAddr) -> io::Result<()> {
    let host = address.ip();
    let port = address.port();
    println!(rt;
        "This is a demo: whoever reads this can log in, and nothing outlives it. Its users are"
    )?;
    println!(rt; "    alice with the token demo-1, and bob with the token demo-2, of 1 MiB each.")?;
    println!(rt; "In another terminal, alice logs in, stores three bytes and asks for them:")?;
    println!(rt;
        "    printf 'set login 0 0 12\\r\\nalice demo-1\\r\\nset k 5 0 3\\r\\nabc\\r\\nget k\\r\\nquit\\r\\n' | nc {host} {port}"
    )?;
    println!(rt; "and bob, who asks for the same key, finds nothing:")?;
    println!(rt;
        "    printf 'set login 0 0 10\\r\\nbob demo-2\\r\\nget k\\r\\nquit\\r\\n' | nc {host} {port}"
    )
}
