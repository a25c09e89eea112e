//! What holds of settings.

ghost use Rattle.mesh_laws.specs.SettingLaws.{SettingsAreKnown};

/// What a node knows of its settings is what its log says of them.
pub fn settings_are_known()
    ensures { SettingsAreKnown }
{}
