//! Worked examples of the definitions, computed by proof. The functions do nothing; each clause is an example.

ghost use Rattle.std.specs.Prelude.{◌≡◌, [], ◌∷◌, ◌++◌, Some, None, drop, take};
ghost use Rattle.pcap_records.specs.examples.Records.{pcapng, big_nanoseconds, little_microseconds, version_2_4};
ghost use Rattle.pcap_records.specs.examples.Records.{ethernet, cooked, file_header, little_header, big_record};
ghost use Rattle.pcap_records.specs.examples.Records.{little_record, row};
ghost use Rattle.pcap_records.specs.FileHeader.{number_of, format_of};
ghost use Rattle.pcap_records.specs.Reading.{cut_after};
ghost use Rattle.pcap_records.specs.Record.{AreRecords, record_at};
ghost use Rattle.pcap_records.specs.Refusal.{refusal, refusal_in};
ghost use Rattle.pcap_records.specs.declared.faults.PcapFault.TheVariants.{ShortHeader, BadMagic, BadVersion, LinkType};
ghost use Rattle.pcap_records.specs.declared.faults.PcapFault.TheVariants.{TooLarge};
ghost use Rattle.pcap_records.specs.declared.format.Endian.TheVariants.{Big, Little};

/// The four magics of the classic format, and one that a modified format has in either order of bytes.
pub fn magics()
    ensures big_micros { format_of (0xa1 ∷ 0xb2 ∷ 0xc3 ∷ 0xd4 ∷ []) ≡ Some (record { endian = Big; unit = 1000 }) }
    ensures big_nanos { format_of big_nanoseconds ≡ Some (record { endian = Big; unit = 1 }) }
    ensures little_micros { format_of little_microseconds ≡ Some (record { endian = Little; unit = 1000 }) }
    ensures little_nanos { format_of (0x4d ∷ 0x3c ∷ 0xb2 ∷ 0xa1 ∷ []) ≡ Some (record { endian = Little; unit = 1 }) }
    ensures big_modified { format_of (0xa1 ∷ 0xb2 ∷ 0xcd ∷ 0x34 ∷ []) ≡ None }
    ensures little_modified { format_of (0x34 ∷ 0xcd ∷ 0xb2 ∷ 0xa1 ∷ []) ≡ None }
{}

/// Headers that are refused, and by what; those of Ethernet and of raw IP are not.
pub fn refused_headers()
    ensures no_byte { refusal [] ≡ Some ShortHeader }
    ensures bytes_23 { refusal (take 23 (little_header version_2_4 ethernet)) ≡ Some ShortHeader }
    ensures magic_of_pcapng { refusal (file_header pcapng version_2_4 ethernet) ≡ Some BadMagic }
    ensures version_2_3 { refusal (little_header (2 ∷ 0 ∷ 3 ∷ 0 ∷ []) ethernet) ≡ Some BadVersion }
    ensures version_3_4 { refusal (little_header (3 ∷ 0 ∷ 4 ∷ 0 ∷ []) ethernet) ≡ Some BadVersion }
    ensures version_of_the_other_order { refusal (little_header (0 ∷ 2 ∷ 0 ∷ 4 ∷ []) ethernet) ≡ Some BadVersion }
    ensures link_113 { refusal (little_header version_2_4 cooked) ≡ Some LinkType }
    ensures ethernet_of_the_other_order { refusal (little_header version_2_4 (0 ∷ 0 ∷ 0 ∷ 1 ∷ [])) ≡ Some LinkType }
    ensures link_1 { refusal (little_header version_2_4 ethernet) ≡ None }
    ensures upper_bits_ignored { refusal (little_header version_2_4 (1 ∷ 0 ∷ 0xff ∷ 0xff ∷ [])) ≡ None }
    ensures link_101 { refusal (little_header version_2_4 (101 ∷ 0 ∷ 0 ∷ 0 ∷ [])) ≡ None }
    ensures big_link_101 { refusal (file_header big_nanoseconds (0 ∷ 2 ∷ 0 ∷ 4 ∷ []) (0 ∷ 0 ∷ 0 ∷ 101 ∷ [])) ≡ None }
{}

/// Where two refusals apply, the one of the lower number stands.
pub fn first_refusal()
    ensures short_before_magic { refusal pcapng ≡ Some ShortHeader }
    ensures magic_before_version { refusal (file_header pcapng (3 ∷ 0 ∷ 4 ∷ 0 ∷ []) ethernet) ≡ Some BadMagic }
    ensures version_before_link { refusal (little_header (3 ∷ 0 ∷ 4 ∷ 0 ∷ []) cooked) ≡ Some BadVersion }
    ensures link_before_size { refusal_in (number_of Little) (little_header version_2_4 cooked) 2147483648
        ≡ Some LinkType }
    ensures one_byte_too_large { refusal_in (number_of Little) (little_header version_2_4 ethernet) 2147483648
        ≡ Some TooLarge }
    ensures largest { refusal_in (number_of Little) (little_header version_2_4 ethernet) 2147483647 ≡ None }
{}

/// Times in each order of bytes and each unit; a fraction above its usual range is used as it is.
pub fn times()
    ensures big_micros { record_at (number_of Big) 1000 24 big_record ≡ row 4002000003000 40 }
    ensures big_nanos { record_at (number_of Big) 1 24 big_record ≡ row 6000000003 40 }
    ensures little_micros { record_at (number_of Little) 1000 57 little_record ≡ row 4002000003000 73 }
    ensures little_nanos { record_at (number_of Little) 1 57 little_record ≡ row 6000000003 73 }
{}

/// Whole records, and what is left of a record whose end is missing.
pub fn cut_records()
    ensures whole { AreRecords (number_of Big) 1 24 (big_record ++ big_record)
        (row 6000000003 40 ∷ row 6000000003 57 ∷ []) [] }
    ensures header_alone { AreRecords (number_of Big) 1 24 (take 16 big_record) [] (take 16 big_record) }
    ensures nothing_left { cut_after [] [] ≡ None }
    ensures first_cut { cut_after [] (take 16 big_record) ≡ Some 1 }
    ensures second_cut { cut_after (record_at (number_of Big) 1 24 big_record ∷ []) (0 ∷ []) ≡ Some 2 }
{}

/// Bytes behind a record that is cut complete it, and change no record before it.
pub fn growing()
    ensures front { AreRecords (number_of Big) 1 24 (big_record ++ take 16 big_record)
        (row 6000000003 40 ∷ []) (take 16 big_record) }
    ensures more { AreRecords (number_of Big) 1 24 ((big_record ++ take 16 big_record) ++ drop 16 big_record)
        (row 6000000003 40 ∷ row 6000000003 57 ∷ []) [] }
{}
