// The laws of a specification's table.
ghost use Rattle.json_defs.specs.Laws.{HasTexts};
ghost use Rattle.json_spec.specs.Form as form;
ghost use Rattle.json_spec.specs.Bytes as shape;

/// States that the text of a specification is read as it, and no text as two; and that its bytes keep S1, and hold its
/// fields, as a store reads them. It does nothing.
pub fn specification_laws()
    ensures texts { HasTexts form.specification shape.specification }
    ensures bytes { shape.HoldsItsFields }
{}
