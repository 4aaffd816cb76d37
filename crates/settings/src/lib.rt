// Settings read back: one setting NAME=number, for keys that a caller gives, as `report::write_settings` writes them.
#![tactic(auto)]

ghost use Rattle.std.specs.Prelude.{◌≡◌};
ghost use Rattle.report.specs.Settings.{keys_lent};
ghost use Rattle.settings.specs.Setting.{setting_of};
ghost use Rattle.settings.specs.ReadBack.{ReadBack};

// What is wrong with a setting: it begins with none of the keys, or what stands behind its key is no number of 32 bits.
#[derive(Clone, Copy, Debug, PartialEq, Eq)]
pub enum SettingError {
    NoName,
    NoNumber,
}

// Reads one setting, without a line feed: which key, counted from 0, is set to which number. Each key ends with its equals sign.
pub fn read_setting(keys: &[&[u8]], setting: &[u8]) -> Result<(usize, u32), SettingError>
    ensures value { result ≡ setting_of (keys_lent keys.now) setting.now }
    ensures read_back { ReadBack (keys_lent keys.now) setting.now result }
{
    for (index, key) in keys.iter().enumerate() {
        if let Some(value) = setting.strip_prefix(*key) {
            let n = card::read_number(value).ok_or(SettingError::NoNumber)?;
            return Ok((index, n));
        }
    }
    Err(SettingError::NoName)
}
