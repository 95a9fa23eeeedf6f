// The laws of the instruction table.

ghost use Rattle.machine_defs.specs.Row.{HasWords, IsUnambiguous};
ghost use Rattle.machine_defs.specs.Table.{full_forms};
ghost use Rattle.machine_defs.specs.Compressed.{compressed_forms};

/// States what the instruction table keeps: no word matches two rows, so that their order does not
/// matter, and each row is matched by some word. It does nothing.
pub fn table_laws()
    ensures full_forms_unambiguous { IsUnambiguous full_forms }
    ensures compressed_forms_unambiguous { IsUnambiguous compressed_forms }
    ensures full_forms_given { HasWords 32 full_forms }
    ensures compressed_forms_given { HasWords 16 compressed_forms }
{}
