//! Laws of scripts. A law is a function without effect: its contract states the law, and a caller that needs it calls
//! it.
ghost use Rattle.cs_shell_script.specs.Net.{NetOfTouched};
ghost use Rattle.cs_shell_script.specs.SessionLaw.{ScriptHasNet};

/// Has no effect. Its contract says that the net changes of a session are those of whole tables: after any lines, each
/// attached table has an entry for each key whose row differs from that at the attachment, and no other entry.
pub fn net_law()
    ensures { NetOfTouched }
{}

/// Has no effect. Its contract says that the net changes of a session are those of its whole tables, after any lines of
/// a script.
pub fn script_net_law()
    ensures { ScriptHasNet }
{
    net_law();
}
