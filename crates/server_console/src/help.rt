//! What stands in the program's help.

ghost use Rattle.std.specs.Prelude.{◌≡◌};
ghost use Rattle.server_console.specs.Helps.{help, usage};

/// What `sqlproxy --help` prints.
pub fn help_text() -> &'static str
    ensures { result.now ≡ help }
{
    "sqlproxy: a proxy for the PostgreSQL protocol that moves live sessions between pods\n\nusage:\n  sqlproxy serve --config FILE [--sessions N]      serves clients by the settings in FILE, which it reads again\n                                                   every few seconds; ends once N connections have ended\n  sqlproxy check [--addr A --tenant T --now N]     reads settings on standard input, and says what they hold\n  sqlproxy --help                                  prints this\n"
}

/// The line on standard error where the words ask for nothing that there is.
pub fn usage_line() -> &'static str
    ensures { result.now ≡ usage }
{
    "usage: sqlproxy serve --config FILE [--sessions N]\n"
}
