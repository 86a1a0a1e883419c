//! Worked examples of the packet decision, computed by proof. The functions do nothing; each clause is an example.
#![tactic(auto, unfolding(crate::specs::Ethernet::is_tagged, crate::specs::Ethernet::header_length, crate::specs::Ethernet::ether_type, crate::specs::Ipv4::version, crate::specs::Ipv4::header_words, crate::specs::Ipv4::total_length, crate::specs::Ipv4::is_fragment, crate::specs::Ipv4::protocol, crate::specs::Ipv4::source_address, crate::specs::Ipv4::destination_address, crate::specs::Tcp::source_port, crate::specs::Tcp::destination_port, crate::specs::Tcp::sequence_number, crate::specs::Tcp::data_offset, crate::specs::Tcp::syn, crate::specs::Tcp::ack))]

ghost use Rattle.std.specs.Prelude.{◌≡◌, [], ◌∷◌, ◌++◌, true, false, codes, replicate, take};
ghost use Rattle.packet_heads.specs.examples.Datagrams.{ipv4_header, tcp_header, payload, options, datagram};
ghost use Rattle.packet_heads.specs.examples.Datagrams.{datagram_with, framed, tagged, double_tagged, whole, of_length};
ghost use Rattle.packet_heads.specs.examples.Datagrams.{segment, segment_with};
ghost use Rattle.packet_heads.specs.Refusal.{refusal_name};
ghost use Rattle.packet_heads.specs.declared.packets.Packet.TheVariants.{Skipped, Refused};
ghost use Rattle.packet_heads.specs.declared.packets.Skip.TheVariants.{NotIpv4, Fragment, NotTcp};
ghost use Rattle.packet_heads.specs.declared.packets.Refusal.TheVariants.{ShortEthernet, ShortIpv4, BadVersion};
ghost use Rattle.packet_heads.specs.declared.packets.Refusal.TheVariants.{BadHeaderLength, BadTotalLength, PastEnd};
ghost use Rattle.packet_heads.specs.declared.packets.Refusal.TheVariants.{ShortTcp, BadDataOffset};

/// Ethernet frames without a tag, by their captured length and their type (RFC 894).
pub fn frames()
    ensures bytes_0 { whole 1 [] ≡ Refused ShortEthernet }
    ensures bytes_13 { whole 1 (take 13 (framed 0x0800 (datagram 0))) ≡ Refused ShortEthernet }
    ensures bytes_14 { whole 1 (take 14 (framed 0x0800 (datagram 0))) ≡ Refused ShortIpv4 }
    ensures bytes_33 { whole 1 (take 33 (framed 0x0800 (datagram 0))) ≡ Refused ShortIpv4 }
    ensures bytes_34 { whole 1 (take 34 (framed 0x0800 (datagram 0))) ≡ Refused ShortTcp }
    ensures bytes_53 { whole 1 (take 53 (framed 0x0800 (datagram 0))) ≡ Refused ShortTcp }
    ensures bytes_54 { whole 1 (take 54 (framed 0x0800 (datagram 0))) ≡ segment 94 94 }
    ensures bytes_56 { whole 1 (framed 0x0800 (datagram 0)) ≡ segment 94 96 }
    ensures type_below { whole 1 (framed 0x07ff (datagram 0)) ≡ Skipped NotIpv4 }
    ensures type_above { whole 1 (framed 0x0801 (datagram 0)) ≡ Skipped NotIpv4 }
    ensures type_of_ipv6 { whole 1 (framed 0x86dd (datagram 0)) ≡ Skipped NotIpv4 }
    ensures type_of_service_tag { whole 1 (framed 0x88a8 (datagram 0)) ≡ Skipped NotIpv4 }
    ensures version_6 { whole 1 (framed 0x0800 (ipv4_header 0x65 0 0 6)) ≡ Refused BadVersion }
{}

/// Frames with a VLAN tag, and with two (IEEE 802.1Q).
pub fn tagged_frames()
    ensures bytes_13 { whole 1 (take 13 (tagged 0x0800 (datagram 0))) ≡ Refused ShortEthernet }
    ensures bytes_14 { whole 1 (take 14 (tagged 0x0800 (datagram 0))) ≡ Refused ShortEthernet }
    ensures bytes_17 { whole 1 (take 17 (tagged 0x0800 (datagram 0))) ≡ Refused ShortEthernet }
    ensures bytes_18 { whole 1 (take 18 (tagged 0x0800 (datagram 0))) ≡ Refused ShortIpv4 }
    ensures bytes_37 { whole 1 (take 37 (tagged 0x0800 (datagram 0))) ≡ Refused ShortIpv4 }
    ensures bytes_38 { whole 1 (take 38 (tagged 0x0800 (datagram 0))) ≡ Refused ShortTcp }
    ensures bytes_60 { whole 1 (tagged 0x0800 (datagram 0)) ≡ segment 98 100 }
    ensures arp { whole 1 (tagged 0x0806 (datagram 0)) ≡ Skipped NotIpv4 }
    ensures double_13 { whole 1 (take 13 (double_tagged 0x0800 (datagram 0))) ≡ Refused ShortEthernet }
    ensures double_14 { whole 1 (take 14 (double_tagged 0x0800 (datagram 0))) ≡ Refused ShortEthernet }
    ensures double_17 { whole 1 (take 17 (double_tagged 0x0800 (datagram 0))) ≡ Refused ShortEthernet }
    ensures double_18 { whole 1 (take 18 (double_tagged 0x0800 (datagram 0))) ≡ Skipped NotIpv4 }
    ensures double_37 { whole 1 (take 37 (double_tagged 0x0800 (datagram 0))) ≡ Skipped NotIpv4 }
    ensures double_38 { whole 1 (take 38 (double_tagged 0x0800 (datagram 0))) ≡ Skipped NotIpv4 }
    ensures double_64 { whole 1 (double_tagged 0x0800 (datagram 0)) ≡ Skipped NotIpv4 }
{}

/// Raw IP, where the version is looked at as soon as there is a byte.
pub fn raw_datagrams()
    ensures bytes_0 { whole 101 [] ≡ Refused ShortIpv4 }
    ensures byte_of_ipv6 { whole 101 (0x60 ∷ []) ≡ Skipped NotIpv4 }
    ensures byte_of_ipv4 { whole 101 (0x45 ∷ []) ≡ Refused ShortIpv4 }
    ensures byte_of_version_7 { whole 101 (0x70 ∷ []) ≡ Refused ShortIpv4 }
    ensures bytes_19 { whole 101 (take 19 (datagram 0)) ≡ Refused ShortIpv4 }
    ensures bytes_20 { whole 101 (take 20 (datagram 0)) ≡ Refused ShortTcp }
    ensures bytes_42 { whole 101 (datagram 0) ≡ segment 80 82 }
    ensures ipv6_in_20 { whole 101 (ipv4_header 0x65 0 0 6) ≡ Skipped NotIpv4 }
    ensures version_5 { whole 101 (ipv4_header 0x55 0 0 6) ≡ Refused BadVersion }
    ensures version_7 { whole 101 (ipv4_header 0x75 0 0 6) ≡ Refused BadVersion }
    ensures frame { whole 101 (framed 0x0800 (datagram 0)) ≡ Refused BadVersion }
{}

/// Where two lines of the table apply, the earlier one decides.
pub fn first_line()
    ensures short_ethernet_not_ipv4 { whole 1 (take 13 (framed 0x0806 [])) ≡ Refused ShortEthernet }
    ensures not_ipv4_short_ipv4 { whole 1 (framed 0x0806 []) ≡ Skipped NotIpv4 }
    ensures short_ipv4_version { whole 101 (take 19 (ipv4_header 0x35 0 0 6)) ≡ Refused ShortIpv4 }
    ensures version_header_length { whole 101 (ipv4_header 0x34 0 0 6) ≡ Refused BadVersion }
    ensures header_length_total_length { whole 101 (ipv4_header 0x46 10 0 6) ≡ Refused BadHeaderLength }
    ensures header_length_past_end { whole 101 (ipv4_header 0x46 42 0 6) ≡ Refused BadHeaderLength }
    ensures header_length_fragment { whole 101 (ipv4_header 0x44 20 0x2000 6) ≡ Refused BadHeaderLength }
    ensures total_length_fragment { whole 101 (ipv4_header 0x45 19 0x2000 17) ≡ Refused BadTotalLength }
    ensures past_end_fragment { whole 101 (ipv4_header 0x45 28 0x2000 6 ++ options) ≡ Refused PastEnd }
    ensures past_end_udp { whole 101 (ipv4_header 0x45 28 0 17 ++ options) ≡ Refused PastEnd }
    ensures past_end_short_tcp { whole 101 (ipv4_header 0x45 28 0 6 ++ options) ≡ Refused PastEnd }
    ensures fragment_udp { whole 101 (ipv4_header 0x45 28 0x2000 17 ++ options ++ options) ≡ Skipped Fragment }
    ensures fragment_short_tcp { whole 101 (ipv4_header 0x45 28 0x2000 6 ++ options ++ options) ≡ Skipped Fragment }
    ensures udp_short_tcp { whole 101 (ipv4_header 0x45 28 0 17 ++ options ++ options) ≡ Skipped NotTcp }
    ensures short_tcp_data_offset { whole 101 (ipv4_header 0x45 39 0 6 ++ tcp_header 0x40 0x10) ≡ Refused ShortTcp }
{}

/// IPv4 headers (RFC 791, 3.1): length, flags and fragment offset, protocol.
pub fn ipv4_headers()
    ensures words_4 { whole 101 (ipv4_header 0x44 0 0 6 ++ tcp_header 0x50 0x10) ≡ Refused BadHeaderLength }
    ensures words_6_in_23 { whole 101 (ipv4_header 0x46 0 0 6 ++ take 3 options) ≡ Refused BadHeaderLength }
    ensures words_6_in_24 { whole 101 (ipv4_header 0x46 0 0 6 ++ options) ≡ Refused ShortTcp }
    ensures total_23_of_words_6 { whole 101 (ipv4_header 0x46 23 0 6 ++ options) ≡ Refused BadTotalLength }
    ensures total_24_of_words_6 { whole 101 (ipv4_header 0x46 24 0 6 ++ options) ≡ Refused ShortTcp }
    ensures options_before_tcp { whole 101 (ipv4_header 0x46 46 0 6 ++ options ++ tcp_header 0x50 0x10 ++ payload)
        ≡ segment 84 86 }
    ensures may_fragment { whole 101 (ipv4_header 0x45 40 0 6 ++ tcp_header 0x50 0x10) ≡ segment 80 80 }
    ensures do_not_fragment { whole 101 (ipv4_header 0x45 40 0xc000 6 ++ tcp_header 0x50 0x10) ≡ segment 80 80 }
    ensures more_fragments { whole 101 (ipv4_header 0x45 40 0x2000 6 ++ tcp_header 0x50 0x10) ≡ Skipped Fragment }
    ensures offset_8 { whole 101 (ipv4_header 0x45 40 0x0001 6 ++ tcp_header 0x50 0x10) ≡ Skipped Fragment }
    ensures offset_32768 { whole 101 (ipv4_header 0x45 40 0x1000 6 ++ tcp_header 0x50 0x10) ≡ Skipped Fragment }
    ensures protocol_5 { whole 101 (ipv4_header 0x45 40 0 5 ++ tcp_header 0x50 0x10) ≡ Skipped NotTcp }
    ensures protocol_7 { whole 101 (ipv4_header 0x45 40 0 7 ++ tcp_header 0x50 0x10) ≡ Skipped NotTcp }
{}

/// The total length against what was captured, and against what there was.
pub fn packet_lengths()
    ensures total_0 { whole 101 (datagram 0) ≡ segment 80 82 }
    ensures total_1 { whole 101 (datagram 1) ≡ Refused BadTotalLength }
    ensures total_19 { whole 101 (datagram 19) ≡ Refused BadTotalLength }
    ensures total_20 { whole 101 (datagram 20) ≡ Refused ShortTcp }
    ensures total_39 { whole 101 (datagram 39) ≡ Refused ShortTcp }
    ensures total_40 { whole 101 (datagram 40) ≡ segment 80 80 }
    ensures total_41 { whole 101 (datagram 41) ≡ segment 80 81 }
    ensures total_42 { whole 101 (datagram 42) ≡ segment 80 82 }
    ensures total_43 { whole 101 (datagram 43) ≡ Refused PastEnd }
    ensures total_298 { whole 101 (datagram 298) ≡ Refused PastEnd }
    ensures total_43_original_41 { of_length 41 101 (datagram 43) ≡ Refused PastEnd }
    ensures total_43_original_43 { of_length 43 101 (datagram 43) ≡ segment_with false true true 80 82 }
    ensures total_42_original_43 { of_length 43 101 (datagram 42) ≡ segment 80 82 }
    ensures total_0_original_43 { of_length 43 101 (datagram 0) ≡ segment_with false true true 80 82 }
    ensures total_40_of_60 { whole 1 (framed 0x0800 (datagram_with 40 (replicate 6 0))) ≡ segment 94 94 }
    ensures total_0_of_100 { whole 1 (framed 0x0800 (datagram_with 0 (replicate 46 0))) ≡ segment 94 140 }
    ensures total_87_of_100 { whole 1 (framed 0x0800 (datagram_with 87 (replicate 46 0))) ≡ Refused PastEnd }
    ensures total_87_of_101 { of_length 101 1 (framed 0x0800 (datagram_with 87 (replicate 46 0)))
        ≡ segment_with false true true 94 140 }
    ensures total_42_in_39 { of_length 42 101 (take 39 (datagram 42)) ≡ Refused ShortTcp }
    ensures total_42_in_40 { of_length 42 101 (take 40 (datagram 42)) ≡ segment_with false true true 80 80 }
{}

/// TCP headers (RFC 9293, 3.1): data offset and control bits.
pub fn tcp_headers()
    ensures words_4 { whole 101 (ipv4_header 0x45 0 0 6 ++ tcp_header 0x40 0x10) ≡ Refused BadDataOffset }
    ensures words_6_in_23 { whole 101 (ipv4_header 0x45 0 0 6 ++ tcp_header 0x60 0x10 ++ take 3 options)
        ≡ Refused BadDataOffset }
    ensures words_6_in_24 { whole 101 (ipv4_header 0x45 0 0 6 ++ tcp_header 0x60 0x10 ++ options) ≡ segment 84 84 }
    ensures words_6_past_total { whole 101 (ipv4_header 0x45 43 0 6 ++ tcp_header 0x60 0x10 ++ options)
        ≡ Refused BadDataOffset }
    ensures no_bit { whole 101 (ipv4_header 0x45 0 0 6 ++ tcp_header 0x50 0) ≡ segment_with false false false 80 80 }
    ensures syn { whole 101 (ipv4_header 0x45 0 0 6 ++ tcp_header 0x50 0x02) ≡ segment_with true false false 80 80 }
    ensures ack { whole 101 (ipv4_header 0x45 0 0 6 ++ tcp_header 0x50 0x10) ≡ segment_with false true false 80 80 }
    ensures both { whole 101 (ipv4_header 0x45 0 0 6 ++ tcp_header 0x50 0x12) ≡ segment_with true true false 80 80 }
    ensures all_others { whole 101 (ipv4_header 0x45 0 0 6 ++ tcp_header 0x5f 0xed)
        ≡ segment_with false false false 80 80 }
{}

/// What a report calls each refusal.
pub fn names()
    ensures short_ethernet { refusal_name ShortEthernet ≡ codes "short-ethernet" }
    ensures short_ipv4 { refusal_name ShortIpv4 ≡ codes "short-ipv4" }
    ensures bad_version { refusal_name BadVersion ≡ codes "bad-version" }
    ensures bad_header_length { refusal_name BadHeaderLength ≡ codes "bad-header-length" }
    ensures bad_total_length { refusal_name BadTotalLength ≡ codes "bad-total-length" }
    ensures past_end { refusal_name PastEnd ≡ codes "past-end" }
    ensures short_tcp { refusal_name ShortTcp ≡ codes "short-tcp" }
    ensures bad_data_offset { refusal_name BadDataOffset ≡ codes "bad-data-offset" }
{}
